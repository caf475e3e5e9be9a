// What a record's own channel shows, and the channels beside it.
ghost use Rattle.std.specs.Prelude.{◌≡◌, true, ◌<◌};
ghost use Rattle.chassis.specs.Channels.{has_chan};
ghost use Rattle.read_events.specs.Sights.{small, next_told};
ghost use Rattle.play_events.specs.Notices.{FindsNext, Aimed, beside};

use crate::Notice;
use chassis::{Agent, Chan, NextPlace, Table};
use queue::Look;
use read_events::Frame;
use read_events::sights::{ahead_or, answer_or, back_or};

// The next place, where the kind asks for it and the entry is there. `next` finds it: whoever judges many records looks it up in a hop
// table, whoever judges one makes none.
pub fn next_of<F: Fn(Table, Chan, Agent) -> NextPlace>(
    t: Table,
    f: Frame,
    l: Option<Look>,
    next: F,
) -> NextPlace
    requires finds { FindsNext (F.pre next) (F.post next) t }
    requires is_there { (has_chan t f.at ≡ true) × Aimed t l }
    ensures { result ≡ next_told t f.event f.at l }
{
    match l {
        Some(l) if f.event.account().moves => next(t, f.at, l.entry.target),
        _ => NextPlace::Target,
    }
}

// (A small next place is a clause: NextPlace is public, and functions that ask nothing are handed any. That a table has a channel or an agent is
// of two arguments.)
pub fn beside(t: Table, f: Frame, l: Option<Look>, next: NextPlace) -> Notice
    requires { (f.at.0 < 255) × small next }
    ensures { result ≡ beside t f l next }
{
    Notice {
        look: l,
        next,
        ahead: ahead_or(f.at, next),
        answer: answer_or(t, f.at, next),
        back: back_or(t, f.at),
    }
}
