// The lent lists: thin functions which gather what is lent and ask those that take a table by value.

ghost use Rattle.std.specs.Prelude.{◌≡◌, Option, Result};
ghost use Rattle.lent_tables.specs.Lists.{lent_answer, joined_of};
ghost use Rattle.lent_tables.specs.code.Made.{bridge_added, home_added, all_added};

use crate::Numbers;
use crate::made::{add_bridge, add_home, bridge_between, checked, empty, no_table};
use base::Refusal;
use chassis::{Bridge, Bus, Table};

// All records of a lent list, one after the other. A list that is too long is walked to its end: the count says that it was.
pub fn add_bridges(t: Table, bs: &[Bridge]) -> Table
    ensures { result ≡ all_added bridge_added t bs.now }
{
    bs.iter().fold(t, |u, g| add_bridge(u, *g))
}

// One bus for each agent. (A fold as above: one function for both would only take add_bridge or add_home beside the list.)
pub fn add_homes(t: Table, hs: &[Bus]) -> Table
    ensures { result ≡ all_added home_added t hs.now }
{
    hs.iter().fold(t, |u, b| add_home(u, *b))
}

// The check of a table whose bridge records and agents' buses are lent: grounds 23 to 27.
#[tactic(auto, using(crate::proofs::Gathered::check_gathered))]
pub fn check(m: Numbers, bs: &[Bridge], hs: &[Bus]) -> Result<(), Refusal>
    ensures { result ≡ lent_answer m bs.now hs.now }
{
    checked(add_homes(add_bridges(empty(m), bs), hs))
}

// The lowest bridge of a lent list between two buses. A list of more bridges than a table has is refused.
#[tactic(auto, using(crate::proofs::Gathered::between_alone))]
pub fn between(bs: &[Bridge], a: Bus, b: Bus) -> Result<Option<u8>, Refusal>
    ensures { result ≡ joined_of bs.now a b }
{
    bridge_between(add_bridges(no_table(), bs), a, b)
}
