// One cycle: the events of a tick are judged against one state, and their order cannot matter.

#![tactic(auto)]

use base::Refusal;
use network::State;

// Why a tick is refused. `record` and `other` are places in the list, from 0.
#[derive(Clone, Copy, Debug, PartialEq, Eq)]
pub enum TickRefusal {
    Refused { ground: Refusal, record: u8 },
    Conflict { record: u8, other: u8 },
}

// What a tick answers, and the state beside it. (See Opened of network.)
#[derive(Clone, Copy)]
pub struct TickOutcome {
    pub answer: Result<(), TickRefusal>,
    pub state: State,
}
