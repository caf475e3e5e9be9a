// A lent channel, looked at and changed where it lies.

#![tactic(auto)]

pub mod changes; // changes.rt: what a change makes of a lent channel
pub mod looks; // looks.rt: what a lent channel shows

use queue::Transaction;

// An entry that is named by its kind (a number, as an entry's) and transaction. Where none is asked for (`None`) nothing is gone through.
#[derive(Clone, Copy, Debug, PartialEq, Eq)]
pub struct Sought {
    pub kind: u8,
    pub transaction: Transaction,
}
