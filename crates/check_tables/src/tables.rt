// Grounds 23 to 27 of a table, in their order.

ghost use Rattle.std.specs.Prelude.{◌≡◌, Result, true, drop};
ghost use Rattle.base.specs.Lists.{all};
ghost use Rattle.chassis.specs.Channels.{has_bus};
ghost use Rattle.chassis.specs.Tables.{within, is_zero_bus, is_zero_bridge, has_both_buses, bridges_of, homes_of, counts_in_range, unused_are_zero, buses_are_there, a_bridge_on_one_bus};
ghost use Rattle.chassis.specs.Routes.{loop_free, all_joined, one_way};
ghost use Rattle.check_tables.specs.Ladders.{InRange, ladder_of};
ghost use Rattle.chassis.specs.Answers.{table_answer};

use crate::labels::{ladder, share_label};
use base::Refusal;
use chassis::{Bridge, Bus, MOST_AGENTS_U8, Table};

const NO_BRIDGE: Bridge = Bridge {
    first: Bus(0),
    second: Bus(0),
};

fn within(low: u8, high: u8, n: u8) -> bool
    ensures { result ≡ within low high n }
{
    (low..=high).contains(&n)
}

#[tactic(auto, unfolding(base::specs::Lists::all))]
fn limits_in_range(limits: [u8; 3]) -> bool
    ensures { result ≡ all (within 1 8) limits }
{
    limits.iter().all(|n| within(1, 8, *n))
}

#[tactic(auto, unfolding(chassis::specs::Tables::counts_in_range))]
fn counts_in_range(t: Table) -> bool
    ensures { result ≡ counts_in_range t }
{
    within(1, 16, t.buses)
        && within(0, 15, t.bridges)
        && within(1, MOST_AGENTS_U8, t.agents)
        && limits_in_range(t.limits)
}

#[tactic(auto, unfolding(base::specs::Lists::all))]
fn unused_bridges_are_zero(t: Table) -> bool
    ensures { result ≡ all is_zero_bridge (drop t.bridges t.pairs) }
{
    t.pairs
        .iter()
        .skip(t.bridges as usize)
        .all(|g| *g == NO_BRIDGE)
}

#[tactic(auto, unfolding(base::specs::Lists::all))]
fn unused_homes_are_zero(t: Table) -> bool
    ensures { result ≡ all is_zero_bus (drop t.agents t.homes) }
{
    t.homes.iter().skip(t.agents as usize).all(|b| *b == Bus(0))
}

#[tactic(auto, unfolding(chassis::specs::Tables::unused_are_zero))]
fn unused_are_zero(t: Table) -> bool
    ensures { result ≡ unused_are_zero t }
{
    unused_bridges_are_zero(t) && unused_homes_are_zero(t)
}

fn has_bus(t: Table, b: Bus) -> bool
    ensures { result ≡ has_bus t b }
{
    b.0 < t.buses
}

#[tactic(auto, unfolding(base::specs::Lists::all))]
fn bridges_are_there(t: Table) -> bool
    requires { counts_in_range t ≡ true }
    ensures { result ≡ all (has_both_buses t) (bridges_of t) }
{
    t.pairs[..t.bridges as usize]
        .iter()
        .all(|g| has_bus(t, g.first) && has_bus(t, g.second))
}

#[tactic(auto, unfolding(base::specs::Lists::all))]
fn homes_are_there(t: Table) -> bool
    requires { counts_in_range t ≡ true }
    ensures { result ≡ all (has_bus t) (homes_of t) }
{
    t.homes[..t.agents as usize].iter().all(|b| has_bus(t, *b))
}

#[tactic(auto, unfolding(chassis::specs::Tables::buses_are_there))]
fn buses_are_there(t: Table) -> bool
    requires { counts_in_range t ≡ true }
    ensures { result ≡ buses_are_there t }
{
    bridges_are_there(t) && homes_are_there(t)
}

#[tactic(auto, unfolding(chassis::specs::Tables::a_bridge_on_one_bus, base::specs::Lists::any))]
fn a_bridge_on_one_bus(t: Table) -> bool
    requires { counts_in_range t ≡ true }
    ensures { result ≡ a_bridge_on_one_bus t }
{
    t.pairs[..t.bridges as usize]
        .iter()
        .any(|g| g.first == g.second)
}

#[tactic(auto, unfolding(chassis::specs::Routes::loop_free), using(crate::proofs::Levels::few_places))]
fn loop_free(t: Table, l: &[u8; 256]) -> bool
    requires { InRange t × (l.now ≡ ladder_of t) }
    ensures { result ≡ loop_free t t.bridges }
{
    for k in 0..t.bridges as usize {
        let g = t.pairs[k];
        if share_label(l, k, g.first, g.second) {
            return false;
        }
    }
    true
}

// (A `for`: the proof of `(0..n).all` did not close.)
fn all_joined(t: Table, l: &[u8; 256]) -> bool
    requires { InRange t × (l.now ≡ ladder_of t) }
    ensures { result ≡ all_joined t }
{
    let k = t.bridges as usize;
    let n = t.buses;
    for a in 0..n {
        if !share_label(l, k, Bus(a), Bus(0)) {
            return false;
        }
    }
    true
}

#[tactic(auto, unfolding(chassis::specs::Routes::one_way))]
fn one_way(t: Table) -> bool
    requires { InRange t }
    ensures { result ≡ one_way t }
{
    let l = ladder(t);
    loop_free(t, &l) && all_joined(t, &l)
}

// `stray`: whatever else brought the table has an unused byte that is not 0. (A flag, as in the definition: ground 24.)
#[tactic(auto, unfolding(chassis::specs::Tables::table_grounds, chassis::specs::Answers::table_answer))]
pub fn table_answer(t: Table, stray: bool) -> Result<(), Refusal>
    ensures { result ≡ table_answer t stray }
{
    if !counts_in_range(t) {
        return Err(Refusal::OutOfRange);
    }
    if !unused_are_zero(t) || stray {
        return Err(Refusal::UnusedByte);
    }
    if !buses_are_there(t) {
        return Err(Refusal::NoSuchBus);
    }
    if a_bridge_on_one_bus(t) {
        return Err(Refusal::OnOneBus);
    }
    if !one_way(t) {
        return Err(Refusal::NotOneWay);
    }
    Ok(())
}
