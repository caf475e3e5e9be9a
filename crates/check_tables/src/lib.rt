// The table check: grounds 23 to 27, by labels of what the bridges join.

#![tactic(auto)]

pub mod labels; // labels.rt: components, level by level
pub mod tables; // tables.rt: grounds 23 to 27
