// Both trees over places: quadtree.rs and octree.rs, once, for any box whose kind of tree is known.
#![tactic(auto)]

pub mod head;
pub mod kind;
pub mod lists;
pub mod place;
pub mod plane;
pub mod space;
