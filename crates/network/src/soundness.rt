// Ground 16: whether a state is sound, for any declared state. Its channels are asked where they lie; none is copied.

ghost use Rattle.std.specs.Prelude.{◌≡◌, true, ◌||◌, ◌<◌, get_or, drop, ltb, eqb};
ghost use Rattle.base.specs.Lists.{all, all_from};
ghost use Rattle.chassis.specs.Channels.{has_agent, chan_count};
ghost use Rattle.chassis.specs.Tables.{within};
ghost use Rattle.queue.specs.Packing.{live};
ghost use Rattle.network.specs.Soundness.{within_limits, stands_right, fit, sound};
ghost use Rattle.network.specs.code.Testing.{counting, sound_channel, sound_count};

use crate::State;
use crate::limits::kept_in;
use chassis::channels::{has_agent, has_chan};
use chassis::{Agent, Chan, MOST_AGENTS, MOST_CHANNELS, MOST_CHANNELS_U8, Table};
use check_tables::tables::table_answer;
use find_routes::ways::Ways;
use queue::{C, CHANNEL_PLACES, Channel, Entry, P, R};

fn begun(begins: [u16; MOST_AGENTS], a: Agent) -> u16
    ensures { result ≡ get_or begins a.0 0 }
{
    begins.get(a.0 as usize).copied().unwrap_or(0)
}

// "Numbers run from 1 to the master's count."
fn is_begun(begins: [u16; MOST_AGENTS], x: Entry) -> bool
    ensures { result ≡ within 1 (get_or begins x.transaction.master.0 0) x.transaction.number }
{
    (1..=begun(begins, x.transaction.master)).contains(&x.transaction.number)
}

// "P and R stand only on the way from master to target; C stands only in the opposite of a bridge channel on that way."
#[tactic(auto, unfolding(crate::specs::Soundness::stands_right))]
fn stands_right(ways: &Ways, n: Chan, x: Entry) -> bool
    requires { (has_agent ways.now.table x.transaction.master ≡ true) × (has_agent ways.now.table x.target ≡ true) × (n.0 < 255) }
    ensures { result ≡ stands_right ways.now.table n x }
{
    if x.kind == C {
        return ways.opposes_the_way(x.transaction.master, x.target, n);
    }
    ways.on_the_way(x.transaction.master, x.target, n)
}

// Kinds are known; P is a write; master and target are two different agents; numbers run from 1 to the master's count; the
// entry stands where its kind may; only R may carry the mark. The routes are asked last but one: by then the table is known
// to have both agents. (Ways and counts go side by side through four functions: the counts are the state's, by value.)
#[tactic(auto, unfolding(crate::specs::Soundness::fit))]
fn fits(ways: &Ways, begins: [u16; MOST_AGENTS], n: Chan, x: Entry) -> bool
    requires { n.0 < 255 }
    ensures { result ≡ fit (counting ways.now.table begins) n x }
{
    (P..=C).contains(&x.kind)
        && (x.kind != P || x.write)
        && has_agent(ways.table, x.transaction.master)
        && has_agent(ways.table, x.target)
        && x.transaction.master != x.target
        && is_begun(begins, x)
        && stands_right(ways, n, x)
        && (x.kind == R || !x.committed)
}

#[tactic(auto, unfolding(base::specs::Lists::all))]
fn entries_fit(ways: &Ways, begins: [u16; MOST_AGENTS], n: Chan, c: &Channel) -> bool
    requires { n.0 < 255 }
    ensures { result ≡ all (fit (counting ways.now.table begins) n) (live c.now) }
{
    c.live().iter().all(|x| fits(ways, begins, n, *x))
}

#[tactic(auto, unfolding(crate::specs::Soundness::within_limits, crate::specs::Rooms::rooms, base::specs::Lists::all))]
fn within_limits(t: Table, c: &Channel) -> bool
    ensures { result ≡ within_limits t (live c.now) }
{
    kept_in(t, P, c) && kept_in(t, R, c) && kept_in(t, C, c)
}

// A channel that the table does not have holds nothing.
fn there_or_empty(t: Table, n: Chan, c: &Channel) -> bool
    ensures { result ≡ (ltb n.0 (chan_count t) || eqb c.now.count 0) }
{
    has_chan(t, n) || c.count == 0
}

#[tactic(auto, unfolding(crate::specs::code::Testing::sound_channel))]
pub fn is_sound_channel(ways: &Ways, begins: [u16; MOST_AGENTS], n: Chan, c: &Channel) -> bool
    requires { n.0 < 255 }
    ensures { result ≡ sound_channel ways.now.table begins n.0 c.now }
{
    c.count <= CHANNEL_PLACES
        && within_limits(ways.table, c)
        && entries_fit(ways, begins, n, c)
        && c.unused_are_zero()
        && there_or_empty(ways.table, n, c)
}

#[tactic(auto, unfolding(base::specs::Lists::all))]
fn unused_counts_are_zero(t: Table, begins: [u16; MOST_AGENTS]) -> bool
    ensures { result ≡ all (λ n. eqb n 0) (drop t.agents begins) }
{
    begins.iter().skip(t.agents as usize).all(|n| *n == 0)
}

// An agent that the table does not have has begun nothing.
#[tactic(auto, using(crate::proofs::Testing::unused_counts), unfolding(base::specs::Lists::all))]
pub fn are_sound_counts(t: Table, begins: [u16; MOST_AGENTS]) -> bool
    ensures { result ≡ all_from 0 (sound_count t) begins }
{
    unused_counts_are_zero(t, begins)
}

fn are_sound_channels(
    ways: &Ways,
    begins: [u16; MOST_AGENTS],
    channels: &[Channel; MOST_CHANNELS],
) -> bool
    ensures { result ≡ all_from 0 (sound_channel ways.now.table begins) channels.now }
{
    for n in 0..MOST_CHANNELS_U8 {
        if !is_sound_channel(ways, begins, Chan(n), &channels[n as usize]) {
            return false;
        }
    }
    true
}

// The table is asked first: routes are asked only on a table that passes. The hop table is made once for all entries.
#[tactic(auto, using(crate::proofs::Testing::sound_is_tested, crate::proofs::Testing::checked_is_passes), unfolding(crate::specs::code::Testing::tested))]
pub fn is_sound_in(s: &State) -> bool
    ensures { result ≡ sound s.now }
{
    table_answer(s.table, false).is_ok()
        && are_sound_channels(&Ways::of(s.table), s.begins, &s.channels)
        && are_sound_counts(s.table, s.begins)
}

// The same by value.
pub fn is_sound(s: State) -> bool
    ensures { result ≡ sound s }
{
    is_sound_in(&s)
}
