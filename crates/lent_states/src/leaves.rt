// One place of a lent state read, or changed. (Clauses say that the place is there, and above that the state is sound: a channel's number in a
// record may be any byte, and a state is its holder's own, with public fields.)
ghost use Rattle.std.specs.Prelude.{◌≡◌, ◌<◌, get_or};
ghost use Rattle.chassis.specs.Capacities.{most_agents, most_channels};
ghost use Rattle.network.specs.code.Acts.{channel_at, counted};
ghost use Rattle.lent_states.specs.Stores.{with_table, with_counts, with_channel};

use chassis::{Agent, Chan, MOST_AGENTS, Table};
use network::State;
use queue::Channel;

pub fn table_in(s: &State) -> Table
    ensures { result ≡ s.now.table }
{
    s.table
}

pub fn begins_in(s: &State) -> [u16; MOST_AGENTS]
    ensures { result ≡ s.now.begins }
{
    s.begins
}

// A copy: for what asks after all of a channel at once.
pub fn channel_in(s: &State, n: Chan) -> Channel
    requires { n.0 < most_channels }
    ensures { result ≡ channel_at s.now n }
{
    s.channels[n.0 as usize]
}

// How many entries a channel holds.
pub fn held_at(s: &State, n: Chan) -> usize
    requires { n.0 < most_channels }
    ensures { result ≡ (channel_at s.now n).count }
{
    s.channels[n.0 as usize].count
}

pub fn count_in(s: &State, m: Agent) -> u16
    requires { m.0 < most_agents }
    ensures { result ≡ get_or s.now.begins m.0 0 }
{
    s.begins[m.0 as usize]
}

#[tactic(auto, unfolding(network::specs::code::Acts::counted))]
pub fn put_count(s: &mut State, m: Agent, n: u16)
    requires { m.0 < most_agents }
    ensures { s.new ≡ counted s.old m n }
{
    s.begins[m.0 as usize] = n;
}

pub fn put_table(s: &mut State, t: Table)
    ensures { s.new ≡ with_table s.old t }
{
    s.table = t;
}

pub fn put_begins(s: &mut State, counts: [u16; MOST_AGENTS])
    ensures { s.new ≡ with_counts s.old counts }
{
    s.begins = counts;
}

pub fn put_channel(s: &mut State, n: Chan, c: Channel)
    requires { n.0 < most_channels }
    ensures { s.new ≡ with_channel s.old n c }
{
    s.channels[n.0 as usize] = c;
}
