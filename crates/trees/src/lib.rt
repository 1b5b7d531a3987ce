// What both trees share: how points lie in their piece, and the laws of searches and changes over any number of axes. There is no code here.
#![tactic(auto)]
