// A plan carried out where the state lies.
ghost use Rattle.std.specs.Prelude.{◌≡◌, cond};
ghost use Rattle.lent_plays.specs.Asks.{Stored, settled};

use chassis::Agent;
use judge_events::Plan;
use lent_states::channels::act_at;
use lent_states::leaves::{count_in, put_count};
use network::State;

// The count that an agent then has: a begin's value, or what it was.
pub fn raised(count: u16, value: u16, raises: bool) -> u16
    ensures { result ≡ cond raises value count }
{
    if raises { value } else { count }
}

pub fn settle_in(s: &mut State, m: Agent, p: Plan)
    requires { Stored m p }
    ensures { s.new ≡ settled s.old m p }
{
    act_at(s, p.first);
    act_at(s, p.second);
    act_at(s, p.third);
    let count = count_in(s, m);
    put_count(s, m, raised(count, p.value, p.raises));
}
