// One place of lent turns read, or stored to: the only functions that reach into them.
ghost use Rattle.std.specs.Prelude.{◌≡◌, ◌<◌, get_or, length, set};
ghost use Rattle.chassis.specs.Capacities.{most_records};
ghost use Rattle.play_ticks.specs.Turns.{no_turn};

use play_ticks::{Turn, Turns};

pub fn turn_at(turns: &Turns, n: usize) -> Turn
    requires { n < most_records }
    ensures { result ≡ get_or turns.now.all n no_turn }
{
    turns.all[n]
}

pub fn put_turn(turns: &mut Turns, n: usize, x: Turn)
    requires { n < most_records }
    ensures { turns.new ≡ record { all = set turns.old.all n x } }
{
    turns.all[n] = x;
}

// There is a place for each record: the type says so. A proof has it where a place is read.
pub fn places_in(turns: &Turns)
    ensures { length turns.now.all ≡ most_records }
{
    let _first = turns.all[0].master;
}
