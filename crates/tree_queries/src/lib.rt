// The queries of both trees, on pieces that hold a sound tree.
#![tactic(auto)]

pub mod ask;
pub mod search;
