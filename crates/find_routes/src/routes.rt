// The next place on a route, for one question.

ghost use Rattle.std.specs.Prelude.{◌≡◌, true};
ghost use Rattle.chassis.specs.Channels.{has_agent, has_chan};
ghost use Rattle.chassis.specs.Routes.{next_place};
ghost use Rattle.chassis.specs.Tables.{table_passes};
ghost use Rattle.chassis.specs.Answers.{route_answer};

use crate::hops::next_hop;
use base::Refusal;
use chassis::channels::{has_agent, has_chan, home, out_bus};
use chassis::{Agent, Chan, NextPlace, Table};
use check_tables::labels::ladder;
use check_tables::tables::table_answer;

// One question: no table is made for it.
pub fn next_place(t: Table, n: Chan, a: Agent) -> NextPlace
    requires { (table_passes t ≡ true) × (has_chan t n ≡ true) × (has_agent t a ≡ true) }
    ensures { result ≡ next_place t n a }
{
    let l = ladder(t);
    let k = t.bridges as usize;
    next_hop(t, &l, k, out_bus(t, n), home(t, a))
}

// The same question from any caller: 23 to 27 for the table, 2 for a number that is not in it.
pub fn route(t: Table, n: Chan, a: Agent) -> Result<NextPlace, Refusal>
    ensures { result ≡ route_answer t n a }
{
    table_answer(t, false)?;
    if !has_chan(t, n) || !has_agent(t, a) {
        return Err(Refusal::NotInTable);
    }
    Ok(next_place(t, n, a))
}
