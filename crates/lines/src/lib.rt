// The log's lines, as bytes.

#![tactic(auto, using(crate::proofs::Texts::writing), unfolding(crate::specs::Lines::text))]

pub mod lines;
