// Eight record bytes to an event.
ghost use Rattle.std.specs.Prelude.{◌≡◌, ◌+◌, ◌*◌, ◌<◌, ◌≤◌, length, take, drop};
ghost use Rattle.events.specs.Records.{begin_event, named_event, begin_unused_zero, other_unused_zero, rest_is_zero, decoded};

use crate::Event;
use chassis::{Agent, Chan};
use queue::Transaction;

// Two bytes, low first. (The functions below are told that a record has eight bytes: an array would be copied out of the slice first.)
fn word(low: u8, high: u8) -> u16
    ensures { result ≡ low + 256 * high }
{
    u16::from_le_bytes([low, high])
}

fn begin_of(kind: u8, m: Agent, a: Agent) -> Option<Event>
    ensures { result ≡ begin_event kind m a }
{
    match kind {
        1 => Some(Event::BeginPosted {
            master: m,
            target: a,
        }),
        2 => Some(Event::BeginRead {
            master: m,
            target: a,
        }),
        3 => Some(Event::BeginWrite {
            master: m,
            target: a,
        }),
        _ => None,
    }
}

fn named_of(kind: u8, n: Chan, t: Transaction) -> Option<Event>
    ensures { result ≡ named_event kind n t }
{
    match kind {
        4 => Some(Event::Commit {
            channel: n,
            transaction: t,
        }),
        5 => Some(Event::Post {
            channel: n,
            transaction: t,
        }),
        6 => Some(Event::Latch {
            channel: n,
            transaction: t,
        }),
        7 => Some(Event::Complete {
            channel: n,
            transaction: t,
        }),
        8 => Some(Event::DropRequest {
            channel: n,
            transaction: t,
        }),
        9 => Some(Event::DropCompletion {
            channel: n,
            transaction: t,
        }),
        _ => None,
    }
}

// None uses the last two bytes.
fn rest_is_zero(b: &[u8]) -> bool
    requires { length b.now ≡ 8 }
    ensures { result ≡ rest_is_zero b.now }
{
    b[6] == 0 && b[7] == 0
}

// A begin does not use channel and number.
fn begin_unused_zero(b: &[u8]) -> bool
    requires { length b.now ≡ 8 }
    ensures { result ≡ begin_unused_zero b.now }
{
    b[1] == 0 && b[4] == 0 && b[5] == 0 && rest_is_zero(b)
}

// Other kinds do not use target.
fn other_unused_zero(b: &[u8]) -> bool
    requires { length b.now ≡ 8 }
    ensures { result ≡ other_unused_zero b.now }
{
    b[3] == 0 && rest_is_zero(b)
}

// The event of eight record bytes, or ground 1.
pub fn decode(b: &[u8]) -> Option<Event>
    requires { length b.now ≡ 8 }
    ensures { result ≡ decoded b.now }
{
    let kind = b[0];
    if kind < 4 {
        if !begin_unused_zero(b) {
            return None;
        }
        return begin_of(kind, Agent(b[2]), Agent(b[3]));
    }
    if !other_unused_zero(b) {
        return None;
    }
    let number = word(b[4], b[5]);
    named_of(
        kind,
        Chan(b[1]),
        Transaction {
            master: Agent(b[2]),
            number,
        },
    )
}

// Record i of the record bytes: "eight bytes each".
pub fn record_at(r: &[u8], i: usize) -> Option<Event>
    requires { 8 * i + 8 ≤ length r.now }
    ensures { result ≡ decoded (take 8 (drop (8 * i) r.now)) }
{
    let from = 8 * i;
    let to = from + 8;
    decode(&r[from..to])
}
