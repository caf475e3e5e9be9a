// What is read off the state for a record; and, in specs/ and proofs/, records played one after the other.

#![tactic(auto)]

pub mod notices;

use chassis::{Chan, NextPlace};
use queue::Look;

// What a record's own channel shows: the entry that the record names, its next place N1, and the channels to look at next, N1 or N
// itself, the opposite of N1, the opposite of N.
#[derive(Clone, Copy, Debug, PartialEq, Eq)]
pub struct Notice {
    pub look: Option<Look>,
    pub next: NextPlace,
    pub ahead: Chan,
    pub answer: Chan,
    pub back: Chan,
}
