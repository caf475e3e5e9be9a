// The channels beside the one that a record names.
ghost use Rattle.std.specs.Prelude.{◌≡◌, ◌<◌};
ghost use Rattle.read_events.specs.Frames.{ahead_or, answer_or, back_or};
ghost use Rattle.read_events.specs.Sights.{small};

use chassis::channels::{is_master, opposite};
use chassis::{Chan, NextPlace, Table};

// N1, its opposite, and the opposite of N; N itself where there is none.
pub fn ahead_or(n: Chan, next: NextPlace) -> Chan
    ensures { result ≡ ahead_or n next }
{
    match next {
        NextPlace::Target => n,
        NextPlace::Through(x) => x,
    }
}

pub fn answer_or(t: Table, n: Chan, next: NextPlace) -> Chan
    requires { small next }
    ensures { result ≡ answer_or t n next }
{
    match next {
        NextPlace::Target => n,
        NextPlace::Through(x) => opposite(t, x),
    }
}

pub fn back_or(t: Table, n: Chan) -> Chan
    requires { n.0 < 255 }
    ensures { result ≡ back_or t n }
{
    if is_master(t, n) { n } else { opposite(t, n) }
}
