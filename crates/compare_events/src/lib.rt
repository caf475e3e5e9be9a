// What the events of a cycle are compared by.

#![tactic(auto)]

pub mod feet;

use chassis::{Agent, Bus, Chan};
use queue::Transaction;

// An entry by its channel, kind (a number, as an entry's) and transaction.
#[derive(Clone, Copy, Debug, PartialEq, Eq)]
pub struct Name {
    pub channel: Chan,
    pub kind: u8,
    pub transaction: Transaction,
}

// What two events are compared by: kinds 4 to 7 occur on a bus, kinds 1 to 3 begin, 4, 6 and 7 try an R, 8 and 9 drop an entry,
// and a 7 may take a C out of a channel.
#[derive(Clone, Copy, Debug, PartialEq, Eq)]
pub struct Foot {
    pub bus: Option<Bus>,
    pub beginner: Option<Agent>,
    pub tries: Option<Name>,
    pub drops: Option<Name>,
    pub takes: Option<Chan>,
}
