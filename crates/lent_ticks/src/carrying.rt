// Turns carried out one after the other where the state lies.
ghost use Rattle.std.specs.Prelude.{◌≡◌, ◌++◌, ℕ, ◌<◌, ◌≤◌, length, get_or, take, drop};
ghost use Rattle.chassis.specs.Capacities.{most_records};
ghost use Rattle.play_ticks.specs.Turns.{no_turn, all_turned, turn_values, Placed};

use crate::leaves::{places_in, turn_at};
use lent_plays::settling::settle_in;
use network::State;
use play_ticks::Turns;

// Plan after plan, with nothing asked again; the values go to the lent list.
pub fn carry_in(s: &mut State, turns: &Turns, answers: &mut [u16], n: usize)
    requires { (n ≤ most_records) × (n ≤ length answers.old) × ((i : ℕ) → i < n → Placed (get_or turns.now.all i no_turn)) }
    ensures { (s.new ≡ all_turned s.old (take n turns.now.all)) × (answers.new ≡ turn_values (take n turns.now.all) ++ drop n answers.old) }
{
    places_in(turns);
    for i in 0..n {
        let x = turn_at(turns, i);
        settle_in(s, x.master, x.plan);
        answers[i] = x.plan.value;
    }
}
