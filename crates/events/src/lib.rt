// One step: an event is one of nine kinds, each with its own fields.

#![tactic(auto)]

pub mod accounts;
pub mod answers;
pub mod reads;
pub mod records;

use base::Refusal;
use chassis::{Agent, Chan};
use network::State;
use queue::Transaction;

#[derive(Clone, Copy, Debug, PartialEq, Eq)]
pub enum Event {
    BeginPosted {
        master: Agent,
        target: Agent,
    },
    BeginRead {
        master: Agent,
        target: Agent,
    },
    BeginWrite {
        master: Agent,
        target: Agent,
    },
    Commit {
        channel: Chan,
        transaction: Transaction,
    },
    Post {
        channel: Chan,
        transaction: Transaction,
    },
    Latch {
        channel: Chan,
        transaction: Transaction,
    },
    Complete {
        channel: Chan,
        transaction: Transaction,
    },
    DropRequest {
        channel: Chan,
        transaction: Transaction,
    },
    DropCompletion {
        channel: Chan,
        transaction: Transaction,
    },
}

// What the nine kinds have in common.
#[derive(Clone, Copy, Debug, PartialEq, Eq)]
pub struct Account {
    // The channel that it names, or begins in.
    pub channel: Chan,
    // The master and the number that it names; a begin names no number: 0.
    pub name: Transaction,
    // A begin's target: kinds 1 to 3.
    pub target: Option<Agent>,
    // The kind of entry that it names, or adds: a number, as an entry's.
    pub kind: u8,
    // Kinds 5 to 7, which ask for the next place.
    pub moves: bool,
}

// Held in a step record with its block and place.
#[derive(Clone, Copy, Debug, PartialEq, Eq)]
pub struct Step {
    pub block: u16,
    pub place: u8,
    pub event: Event,
}

// What a block's record says that holds no event: what its line needs.
#[derive(Clone, Copy, Debug, PartialEq, Eq)]
pub struct Unfit {
    pub block: u16,
    pub place: u8,
    pub kind: u8,
}

// What a single step answers, its value or why it is refused, and the state beside it. (See Opened of network.)
#[derive(Clone, Copy)]
pub struct Outcome {
    pub answer: Result<u16, Refusal>,
    pub state: State,
}
