// One cycle played on a lent state.

#![tactic(auto)]

pub mod leaves; // leaves.rt: one place of the lent turns
pub mod pairs; // pairs.rt: the lowest conflicting pair among them
pub mod carrying; // carrying.rt: turns carried out where the state lies
pub mod judging; // judging.rt: the records of a tick judged against one lent state
pub mod ticking; // ticking.rt: the tick, whatever it is handed
pub mod at_once; // at_once.rt: the same on a state that is handed over
