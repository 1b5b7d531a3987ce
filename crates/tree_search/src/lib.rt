// What lies near a place or in a box, below a node.
#![tactic(auto)]

pub mod nearest;
pub mod question;
pub mod search;
