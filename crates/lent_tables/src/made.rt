// A table made record by record, all by value: for every caller that has no lent list.

ghost use Rattle.std.specs.Prelude.{◌≡◌, ◌<◌, length, position, false, ◌&&◌, Option, Result};
ghost use Rattle.chassis.specs.Numbers.{same_bus};
ghost use Rattle.chassis.specs.Answers.{table_answer};
ghost use Rattle.lent_tables.specs.Lists.{joins};
ghost use Rattle.lent_tables.specs.code.Made.{no_numbers, empty, count_on, place_on, bridge_added, home_added, joined_in};

use crate::Numbers;
use base::Refusal;
use chassis::{Bridge, Bus, MOST_AGENTS, Table};
use check_tables::tables::table_answer;

// No bridge and no agent yet.
pub fn empty(m: Numbers) -> Table
    ensures { result ≡ empty m }
{
    let limits = m.limits; // the borrow checker takes a field that is an array out of a variable only
    Table {
        buses: m.buses,
        bridges: 0,
        agents: 0,
        limits,
        pairs: [Bridge {
            first: Bus(0),
            second: Bus(0),
        }; 15],
        homes: [Bus(0); MOST_AGENTS],
    }
}

// Where only the bridges matter. (network has the all-zero table too, and this crate needs no network.)
pub fn no_table() -> Table
    ensures { result ≡ empty no_numbers }
{
    let limits = [0; 3];
    empty(Numbers { buses: 0, limits })
}

// One more record behind the k that are there, and how many there are then. Where none has a place any more, one more than there are
// places says so.
fn put<T: Copy>(places: &mut [T], k: u8, x: T) -> u8
    requires { length places.now < 255 }
    ensures count { result ≡ count_on (length places.old) k }
    ensures places { places.new ≡ place_on (length places.old) k places.old x }
{
    let n = places.len();
    let i = k as usize;
    if i < n {
        places[i] = x;
        return k + 1;
    }
    n as u8 + 1
}

// A sixteenth bridge has no place, and a count of 16 says that there was one.
pub fn add_bridge(t: Table, g: Bridge) -> Table
    ensures { result ≡ bridge_added t g }
{
    let mut u = t;
    u.bridges = put(&mut u.pairs, t.bridges, g);
    u
}

// An agent too many likewise.
pub fn add_home(t: Table, b: Bus) -> Table
    ensures { result ≡ home_added t b }
{
    let mut u = t;
    u.agents = put(&mut u.homes, t.agents, b);
    u
}

// Grounds 23 to 27 of a table that nothing else brought.
pub fn checked(t: Table) -> Result<(), Refusal>
    ensures { result ≡ table_answer t false }
{
    table_answer(t, false)
}

// From a to b.
fn same_buses(g: Bridge, a: Bus, b: Bus) -> bool
    ensures { result ≡ same_bus g.first a && same_bus g.second b }
{
    g.first == a && g.second == b
}

// In either direction.
fn joins(g: Bridge, a: Bus, b: Bus) -> bool
    ensures { result ≡ joins a b g }
{
    same_buses(g, a, b) || same_buses(g, b, a)
}

fn place_between(gs: &[Bridge], a: Bus, b: Bus) -> Option<usize>
    ensures { result ≡ position (joins a b) gs.now }
{
    gs.iter().position(|g| joins(*g, a, b))
}

// The lowest bridge of a table between two buses.
#[tactic(auto, unfolding(crate::specs::code::Made::joined_in))]
pub fn bridge_between(t: Table, a: Bus, b: Bus) -> Result<Option<u8>, Refusal>
    ensures { result ≡ joined_in t a b }
{
    let n = t.bridges as usize;
    if n > 15 {
        return Err(Refusal::OutOfRange);
    }
    Ok(place_between(&t.pairs[..n], a, b).map(|i| i as u8))
}
