// A record's foot, and the conflict of two.
ghost use Rattle.std.specs.Prelude.{◌≡◌, true};
ghost use Rattle.chassis.specs.Channels.{has_chan};
ghost use Rattle.chassis.specs.Tables.{table_passes};
ghost use Rattle.events.specs.Accounts.{account};
ghost use Rattle.read_events.specs.Sights.{small};
ghost use Rattle.ticks.specs.Footings.{taken_from};
ghost use Rattle.ticks.specs.Conflicts.{clash, drops_the_tried, drops_where_taken};
ghost use Rattle.compare_events.specs.Feet.{no_foot, try_foot, drop_foot, foot, footing_of};

use crate::{Foot, Name};
use chassis::channels::{opposite, out_bus};
use chassis::{Chan, NextPlace, Table};
use events::Event;
use queue::{C, R, Transaction};

pub fn no_foot() -> Foot
    ensures { result ≡ no_foot }
{
    Foot {
        bus: None,
        beginner: None,
        tries: None,
        drops: None,
        takes: None,
    }
}

// Kinds 4, 6 and 7.
fn try_foot(t: Table, n: Chan, x: Transaction, takes: Option<Chan>) -> Foot
    requires { (table_passes t ≡ true) × (has_chan t n ≡ true) }
    ensures { result ≡ try_foot t n x takes }
{
    Foot {
        bus: Some(out_bus(t, n)),
        tries: Some(Name {
            channel: n,
            kind: R,
            transaction: x,
        }),
        takes,
        ..no_foot()
    }
}

// A complete takes the matching C out of the opposite of N1, if N1 is a bridge channel.
fn taken_from(t: Table, next: NextPlace) -> Option<Chan>
    requires { (table_passes t ≡ true) × small next }
    ensures { result ≡ taken_from t next }
{
    match next {
        NextPlace::Target => None,
        NextPlace::Through(c) => Some(opposite(t, c)),
    }
}

// Kinds 8 and 9.
fn drop_foot(kind: u8, channel: Chan, transaction: Transaction) -> Foot
    ensures { result ≡ drop_foot kind channel transaction }
{
    Foot {
        drops: Some(Name {
            channel,
            kind,
            transaction,
        }),
        ..no_foot()
    }
}

#[tactic(auto, unfolding(crate::specs::Feet::foot))]
pub fn foot_of(t: Table, e: Event, next: NextPlace) -> Foot
    requires { (table_passes t ≡ true) × (has_chan t (account e).channel ≡ true) × small next }
    ensures { result ≡ foot t e next }
{
    match e {
        Event::BeginPosted { master, .. }
        | Event::BeginRead { master, .. }
        | Event::BeginWrite { master, .. } => Foot {
            beginner: Some(master),
            ..no_foot()
        },
        Event::Commit {
            channel,
            transaction,
        }
        | Event::Latch {
            channel,
            transaction,
        } => try_foot(t, channel, transaction, None),
        Event::Post { channel, .. } => Foot {
            bus: Some(out_bus(t, channel)),
            ..no_foot()
        },
        Event::Complete {
            channel,
            transaction,
        } => try_foot(t, channel, transaction, taken_from(t, next)),
        Event::DropRequest {
            channel,
            transaction,
        } => drop_foot(R, channel, transaction),
        Event::DropCompletion {
            channel,
            transaction,
        } => drop_foot(C, channel, transaction),
    }
}

// (c), one way
#[tactic(auto, unfolding(crate::specs::Feet::footing_of, ticks::specs::Conflicts::alike))]
fn drops_the_tried(e: Foot, f: Foot) -> bool
    ensures { result ≡ drops_the_tried (footing_of e) (footing_of f) }
{
    e.drops.is_some() && e.drops == f.tries
}

// (d), one way
#[tactic(auto, unfolding(crate::specs::Feet::footing_of, ticks::specs::Conflicts::alike))]
fn drops_where_taken(e: Foot, f: Foot) -> bool
    ensures { result ≡ drops_where_taken (footing_of e) (footing_of f) }
{
    matches!((e.drops, f.takes), (Some(x), Some(n)) if x.kind == C && x.channel == n)
}

// (a) to (e), one a line.
#[tactic(auto, unfolding(crate::specs::Feet::footing_of, ticks::specs::Conflicts::alike, ticks::specs::Conflicts::clash))]
pub fn clashes(e: Foot, f: Foot) -> bool
    ensures { result ≡ clash (footing_of e) (footing_of f) }
{
    (e.bus.is_some() && e.bus == f.bus)
        || (e.beginner.is_some() && e.beginner == f.beginner)
        || (drops_the_tried(e, f) || drops_the_tried(f, e))
        || (drops_where_taken(e, f) || drops_where_taken(f, e))
        || (e.drops.is_some() && e.drops == f.drops)
}
