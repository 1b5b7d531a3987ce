// What the soundness test asks of an undivided node: its list, and where the points of the list lie.
#![tactic(auto)]

pub mod area;
pub mod leaf;
