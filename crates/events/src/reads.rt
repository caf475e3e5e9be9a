// A block's record as it is read: the event in its step record, with what its line needs.
ghost use Rattle.std.specs.Prelude.{◌≡◌, ◌+◌, ◌*◌, ◌<◌, ◌≤◌, length, take, drop};
ghost use Rattle.events.specs.Records.{kind_number};
ghost use Rattle.events.specs.Reads.{read_as, read_at, decoded_of, block_of, place_of, kind_byte};

use crate::records::record_at;
use crate::{Event, Step, Unfit};

fn read_as(block: u16, place: u8, kind: u8, d: Option<Event>) -> Result<Step, Unfit>
    ensures { result ≡ read_as block place kind d }
{
    match d {
        Some(event) => Ok(Step {
            block,
            place,
            event,
        }),
        None => Err(Unfit { block, place, kind }),
    }
}

// Record i of the record bytes of a block.
pub fn decode_at(r: &[u8], block: u16, i: usize) -> Result<Step, Unfit>
    requires { (8 * i + 8 ≤ length r.now) × (i < 256) }
    ensures { result ≡ read_at block i (take 8 (drop (8 * i) r.now)) }
{
    let from = 8 * i;
    read_as(block, i as u8, r[from], record_at(r, i))
}

pub fn decoded_of(x: Result<Step, Unfit>) -> Option<Event>
    ensures { result ≡ decoded_of x }
{
    match x {
        Ok(s) => Some(s.event),
        Err(_) => None,
    }
}

pub fn block_of(x: Result<Step, Unfit>) -> u16
    ensures { result ≡ block_of x }
{
    match x {
        Ok(s) => s.block,
        Err(u) => u.block,
    }
}

pub fn place_of(x: Result<Step, Unfit>) -> u8
    ensures { result ≡ place_of x }
{
    match x {
        Ok(s) => s.place,
        Err(u) => u.place,
    }
}

// A line's number, and no `From`: an event is no number.
fn kind_number(e: Event) -> u8
    ensures { result ≡ kind_number e }
{
    match e {
        Event::BeginPosted { .. } => 1,
        Event::BeginRead { .. } => 2,
        Event::BeginWrite { .. } => 3,
        Event::Commit { .. } => 4,
        Event::Post { .. } => 5,
        Event::Latch { .. } => 6,
        Event::Complete { .. } => 7,
        Event::DropRequest { .. } => 8,
        Event::DropCompletion { .. } => 9,
    }
}

// The record's first byte.
pub fn kind_byte(x: Result<Step, Unfit>) -> u8
    ensures { result ≡ kind_byte x }
{
    match x {
        Ok(s) => kind_number(s.event),
        Err(u) => u.kind,
    }
}
