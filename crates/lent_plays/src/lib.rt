// Records played on a lent state: what is asked of its channels, what is said, and what is stored.

#![tactic(auto)]

pub mod shapes; // shapes.rt: what the type of a lent state says of its arrays
pub mod questions; // questions.rt: what a record asks of which channel
pub mod judging; // judging.rt: a record judged on a lent state
pub mod settling; // settling.rt: a plan carried out where the state lies
pub mod stepping; // stepping.rt: one step on its own, and one of many
pub mod in_turn; // in_turn.rt: records played one after the other
pub mod steps; // steps.rt: the same on a state that is handed over

use chassis::{Chan, NextPlace};
use judge_events::Plan;
use lent_channels::Sought;
use read_events::Frame;

// What a record asks of the channels, as far as its kind asks: how many of a kind stand in the channel that receives (5), N1's R of the
// transaction (10), its C in the opposite of N1 (10, 12, 14), whether its C is the oldest (13).
#[derive(Clone, Copy, Debug, PartialEq, Eq)]
pub struct Asks {
    pub room: Chan,
    pub counted: Option<u8>,
    pub waits: Option<Sought>,
    pub answers: Option<Sought>,
    pub oldest: Option<Sought>,
}

// What judging an accepted record says.
#[derive(Clone, Copy, Debug, PartialEq, Eq)]
pub struct Judged {
    pub frame: Frame,
    pub next: NextPlace,
    pub plan: Plan,
}
