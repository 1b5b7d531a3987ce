// A point, or many, put into the tree of lent pieces: insert and insert_bulk of the Rust. They rely on pieces that hold a sound tree.
#![tactic(auto)]

pub mod bulk;
pub mod insert;
