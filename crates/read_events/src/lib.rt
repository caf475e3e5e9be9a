// What a record points to, and what is seen there.

#![tactic(auto)]

pub mod frames;
pub mod sights;

use chassis::{Agent, Chan};
use events::Event;
use queue::Look;

// An event whose numbers were looked up in the table: its channel and its master are there.
#[derive(Clone, Copy, Debug, PartialEq, Eq)]
pub struct Frame {
    pub event: Event,
    pub at: Chan,
    pub master: Agent,
}

// What a judge is told of the other channels, as far as the event's kind asks it: whether the receiving channel is at its
// limit (5), whether N1 holds the transaction's R (10), what the opposite of N1 shows of its C (10, 12, 14), whether the C is
// the oldest (13).
#[derive(Clone, Copy, Debug, PartialEq, Eq)]
pub struct Sight {
    pub full: bool,
    pub waits: bool,
    pub answer: Option<Look>,
    pub oldest: bool,
}
