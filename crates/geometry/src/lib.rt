// Boxes and distances: geometry.rs, with the routing and the split of quadtree.rs and octree.rs.
// Every function is total: NaN and infinities are answered as IEEE 754 computes them.
#![tactic(auto, unfolding(model::specs::Boxes::inside, model::specs::Boxes::meets, model::specs::Boxes::route, model::specs::Boxes::part, model::specs::Boxes::node_distance, model::specs::Boxes::same_place, model::specs::Boxes::squared))]

pub mod plane;
pub mod region;
pub mod space;
