// The way down to a leaf, and a point put into a tree below a node.
#![tactic(auto)]

pub mod descent;
pub mod insert;
