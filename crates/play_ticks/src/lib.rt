// One cycle: what judging a record leaves. Every record is judged once, in the state that the tick starts in, and leaves a turn: its plan
// and its foot. Feet are compared pair by pair; then the plans are carried out, and nothing is judged again. (That this is the
// tick: proofs/TickPlayed.antt.)

#![tactic(auto)]

pub mod turning;

use chassis::{Agent, MOST_RECORDS};
use compare_events::Foot;
use judge_events::Plan;

// What judging an accepted record leaves.
#[derive(Clone, Copy, Debug, PartialEq, Eq)]
pub struct Turn {
    pub plan: Plan,
    pub master: Agent,
    pub foot: Foot,
}

// As many places as a tick has records: memory is fixed.
#[derive(Clone, Copy)]
pub struct Turns {
    pub all: [Turn; MOST_RECORDS],
}
