// A tree made in its lent pieces, and emptied: the creation, and clear of the Rust, which relies on pieces that hold a sound tree. What is written to a place is here too.
#![tactic(auto)]

pub mod create;
pub mod put;
