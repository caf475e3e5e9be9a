// Blocks played: what is printed, and the state that is reached.

#![tactic(auto)]

pub mod blocks_in; // blocks_in.rt: a block of single steps, on a lent state
pub mod runs;
