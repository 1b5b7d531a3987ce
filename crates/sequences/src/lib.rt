// What is true of any calls on a tree that meet the contracts: theorems only.
#![tactic(auto)]
