// The state of a network: table, channels, and the counts of accepted begins.

#![tactic(auto)]

ghost use Rattle.std.specs.Prelude.{◌≡◌};
ghost use Rattle.chassis.specs.Tables.{zero_table};
ghost use Rattle.network.specs.code.Acts.{acted_on, counted};
ghost use Rattle.network.specs.Nets.{pack, empty_net};
ghost use Rattle.network.specs.Opening.{zero_state, opened};

pub mod limits; // limits.rt: how much a channel may hold
pub mod soundness; // soundness.rt: ground 16

use base::Refusal;
use chassis::{Agent, Bridge, Bus, Chan, MOST_AGENTS, MOST_CHANNELS, Table};
use check_tables::tables::table_answer;
use queue::{Change, Channel};

// `begins` counts each agent's accepted begins. (Arrays, one place for each channel and agent: memory is fixed.)
#[derive(Clone, Copy, Debug, PartialEq, Eq)]
pub struct State {
    pub table: Table,
    pub channels: [Channel; MOST_CHANNELS],
    pub begins: [u16; MOST_AGENTS],
}

// What the table check answered, and beside it the empty network of a table that passed, or the all-zero state. (Outcome of events and
// TickOutcome of ticks are like it but for the answer: one generic struct would have every signature spell the answer's type.)
#[derive(Clone, Copy, Debug, PartialEq, Eq)]
pub struct Opened {
    pub answer: Result<(), Refusal>,
    pub state: State,
}

// What an event does to one channel of the network.
#[derive(Clone, Copy, Debug, PartialEq, Eq)]
pub struct Act {
    pub at: Chan,
    pub change: Change,
}

// The empty network of a table.
#[tactic(auto, unfolding(crate::specs::Nets::pack, crate::specs::Nets::empty_net))]
pub fn empty(t: Table) -> State
    ensures { result ≡ pack (empty_net t) }
{
    State {
        table: t,
        channels: [Channel::empty(); MOST_CHANNELS],
        begins: [0; MOST_AGENTS],
    }
}

#[tactic(auto, unfolding(chassis::specs::Tables::zero_table))]
pub fn zero_table() -> Table
    ensures { result ≡ zero_table }
{
    let b = Bus(0);
    Table {
        buses: 0,
        bridges: 0,
        agents: 0,
        limits: [0; 3],
        pairs: [Bridge {
            first: b,
            second: b,
        }; 15],
        homes: [b; MOST_AGENTS],
    }
}

// The all-zero state, which is not sound.
#[tactic(auto, unfolding(crate::specs::Nets::pack, crate::specs::Nets::empty_net, crate::specs::Opening::zero_state))]
pub fn zero() -> State
    ensures { result ≡ zero_state }
{
    empty(zero_table())
}

// "A refused table gives its number and the all-zero state."
#[tactic(auto, unfolding(crate::specs::Opening::opened))]
pub fn open(t: Table, stray: bool) -> Opened
    ensures { result ≡ opened t stray }
{
    let answer = table_answer(t, stray);
    let state = match answer {
        Ok(()) => empty(t),
        Err(_) => zero(),
    };
    Opened { answer, state }
}

impl State {
    // One channel changed; a channel that is not there changes nothing. (act_at of lent_states asks that it is there. By an index: the
    // proof by `get_mut` did not close.)
    #[tactic(auto, unfolding(crate::specs::code::Acts::acted_on))]
    pub fn acted(mut self, a: Act) -> State
        ensures { result ≡ acted_on self a }
    {
        let i = a.at.0 as usize;
        if i < MOST_CHANNELS {
            self.channels[i].change(a.change);
        }
        self
    }

    // An agent's count set; an agent that is not there counts nothing. (put_count of lent_states asks that it is there. By an
    // index, as above.)
    #[tactic(auto, unfolding(crate::specs::code::Acts::counted))]
    pub fn counted(mut self, m: Agent, n: u16) -> State
        ensures { result ≡ counted self m n }
    {
        let i = m.0 as usize;
        if i < MOST_AGENTS {
            self.begins[i] = n;
        }
        self
    }
}
