// A lent state, read and changed where it lies.

#![tactic(auto)]

pub mod channels; // channels.rt: one of its channels, lent on
pub mod leaves; // leaves.rt: one place of it
pub mod left; // left.rt: the entries left in all channels
pub mod opening; // opening.rt: a table checked, and the state of its answer

// Ground 16 of a lent state is network's.
pub use network::soundness;
