// What the trees mean, as definitions in specs/, and what is true of it, in proofs/. Nothing here runs.
#![tactic(auto)]
