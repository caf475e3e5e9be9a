// What a record asks of which channel, as far as its kind asks. All by value: whoever is lent the state puts these questions.
ghost use Rattle.std.specs.Prelude.{◌≡◌, ◌≤◌, IfSome};
ghost use Rattle.queue.specs.Entries.{C};
ghost use Rattle.lent_plays.specs.Asks.{if_through, named, matched, sought_for, asks_room, back_room, asks, fills};

use crate::Asks;
use chassis::channels::is_master;
use chassis::{Chan, NextPlace, Table};
use events::Event;
use lent_channels::Sought;
use network::limits::at_limit;
use play_events::Notice;
use queue::{C, Look, P, R, Transaction};
use read_events::Frame;

fn if_through<T: Copy>(next: NextPlace, x: T) -> Option<T>
    ensures { result ≡ if_through next x }
{
    match next {
        NextPlace::Target => None,
        NextPlace::Through(_) => Some(x),
    }
}

fn named(kind: u8, t: Transaction) -> Sought
    ensures { result ≡ named kind t }
{
    Sought {
        kind,
        transaction: t,
    }
}

// The entry that a record names: not of a begin.
pub fn sought_for(f: Frame) -> Option<Sought>
    ensures { result ≡ sought_for f }
{
    let a = f.event.account();
    match a.target {
        Some(_) => None,
        None => Some(named(a.kind, a.name)),
    }
}

// Room for an entry of a kind, where it is asked, and nothing else.
fn asks_room(room: Chan, counted: Option<u8>) -> Asks
    ensures { result ≡ asks_room room counted }
{
    Asks {
        room,
        counted,
        waits: None,
        answers: None,
        oldest: None,
    }
}

// Where the request is there, and not in a master channel, room is asked for its answer.
fn back_room(t: Table, n: Chan, l: Option<Look>) -> Option<u8>
    ensures { result ≡ back_room t n l }
{
    if l.is_none() || is_master(t, n) {
        None
    } else {
        Some(C)
    }
}

// What goes with a request is sought by the transaction of the request that was found, and not of the one that was named: in N1, or
// behind it.
fn matched(kind: u8, next: NextPlace, look: Option<Look>) -> Option<Sought>
    ensures { result ≡ matched kind next look }
{
    match next {
        NextPlace::Target => None,
        NextPlace::Through(_) => look.map(|l| named(kind, l.entry.transaction)),
    }
}

// The C that answers a request stands in the opposite of N1.
fn answer_asked(next: NextPlace, look: Option<Look>) -> Option<Sought>
    ensures { result ≡ matched C next look }
{
    matched(C, next, look)
}

// A line a kind.
pub fn asks_of(t: Table, f: Frame, n: Notice) -> Asks
    ensures { result ≡ asks t f n }
{
    match f.event {
        Event::BeginPosted { .. } => asks_room(f.at, Some(P)),
        Event::BeginRead { .. } => asks_room(f.at, Some(R)),
        Event::BeginWrite { .. } => asks_room(f.at, Some(R)),
        Event::Commit { .. } => asks_room(f.at, None),
        Event::Post { .. } => asks_room(n.ahead, if_through(n.next, P)),
        Event::Latch { .. } => Asks {
            room: n.ahead,
            counted: if_through(n.next, R),
            waits: matched(R, n.next, n.look),
            answers: answer_asked(n.next, n.look),
            oldest: None,
        },
        Event::Complete { channel, .. } => Asks {
            room: n.back,
            counted: back_room(t, channel, n.look),
            waits: None,
            answers: answer_asked(n.next, n.look),
            oldest: None,
        },
        Event::DropRequest { .. } => asks_room(f.at, None),
        Event::DropCompletion { transaction, .. } => Asks {
            room: f.at,
            counted: None,
            waits: None,
            answers: None,
            oldest: Some(named(C, transaction)),
        },
    }
}

// So many of a kind are its limit, where it is asked.
pub fn is_full(t: Table, kind: Option<u8>, filled: usize) -> bool
    requires { IfSome kind (λ k. (1 ≤ k) × (k ≤ 3)) }
    ensures { result ≡ fills t kind filled }
{
    match kind {
        None => false,
        Some(k) => at_limit(t, k, filled),
    }
}
