// The next place on a route, and what lies on a way.

#![tactic(auto, using(crate::proofs::Tried::tried), unfolding(chassis::specs::Routes::next_place, chassis::specs::Routes::on_the_way, chassis::specs::Routes::opposes_the_way))]

pub mod hops;
pub mod routes;
pub mod ways;
