// The lowest first record of a conflicting pair and its lowest partner, among lent turns.
ghost use Rattle.std.specs.Prelude.{◌≡◌, ◌<◌, ◌≤◌, get_or, take};
ghost use Rattle.chassis.specs.Capacities.{most_records};
ghost use Rattle.play_ticks.specs.Turns.{no_turn, answer_by, clash_pair, footings};
ghost use Rattle.lent_ticks.specs.Places.{partner_place};

use crate::leaves::{places_in, turn_at};
use compare_events::Foot;
use compare_events::feet::clashes;
use play_ticks::Turns;
use ticks::TickRefusal;

pub fn foot_at(turns: &Turns, n: usize) -> Foot
    requires { n < most_records }
    ensures { result ≡ (get_or turns.now.all n no_turn).foot }
{
    turn_at(turns, n).foot
}

// The first place from j on, below n, whose foot conflicts with e.
pub fn clash_from(turns: &Turns, e: Foot, j: usize, n: usize) -> Option<usize>
    requires { (j ≤ n) × (n ≤ most_records) }
    ensures { result ≡ partner_place turns.now.all e j n }
{
    places_in(turns);
    for i in j..n {
        if clashes(e, foot_at(turns, i)) {
            return Some(i);
        }
    }
    None
}

pub fn first_pair_in(turns: &Turns, n: usize) -> Result<(), TickRefusal>
    requires { n ≤ most_records }
    ensures { result ≡ answer_by (clash_pair 0 (footings (take n turns.now.all))) }
{
    places_in(turns);
    for i in 0..n {
        let e = foot_at(turns, i);
        if let Some(j) = clash_from(turns, e, i + 1, n) {
            return Err(TickRefusal::Conflict {
                record: i as u8,
                other: j as u8,
            });
        }
    }
    Ok(())
}
