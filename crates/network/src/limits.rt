// Room in a channel: each kind has its own. The table's limits are read here. (A kind is a byte and is asked to be 1 to 3: an entry's
// byte is compared with it, and State holds any, ground 16.)
ghost use Rattle.std.specs.Prelude.{◌≡◌, ◌≤◌, leb};
ghost use Rattle.chassis.specs.Channels.{limit};
ghost use Rattle.queue.specs.Entries.{P, C};
ghost use Rattle.queue.specs.Packing.{live};
ghost use Rattle.network.specs.Rooms.{room_of, is_full, is_kept};

use chassis::Table;
use queue::Channel;

fn limit(t: Table, kind: u8) -> usize
    requires { (P ≤ kind) × (kind ≤ C) }
    ensures { result ≡ limit t kind }
{
    t.limits[kind as usize - 1] as usize
}

// So many of the kind are its limit, or more.
pub fn at_limit(t: Table, kind: u8, filled: usize) -> bool
    requires { (P ≤ kind) × (kind ≤ C) }
    ensures { result ≡ leb (limit t kind) filled }
{
    limit(t, kind) <= filled
}

// The kind is at its limit, so that one more has no room.
pub fn full_in(t: Table, kind: u8, c: &Channel) -> bool
    requires { (P ≤ kind) × (kind ≤ C) }
    ensures { result ≡ is_full (room_of t kind) (live c.now) }
{
    at_limit(t, kind, c.filling(kind))
}

// "No kind exceeds its limit there."
pub fn kept_in(t: Table, kind: u8, c: &Channel) -> bool
    requires { (P ≤ kind) × (kind ≤ C) }
    ensures { result ≡ is_kept (room_of t kind) (live c.now) }
{
    c.filling(kind) <= limit(t, kind)
}
