// The site-plan examples that document 01 marks to be proved, as one table in specs/ under one theorem in proofs/. Nothing here runs.
#![tactic(auto)]
