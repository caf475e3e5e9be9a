// What a lent channel shows, where it is asked for.
ghost use Rattle.std.specs.Prelude.{◌≡◌};
ghost use Rattle.queue.specs.Packing.{live};
ghost use Rattle.lent_channels.specs.Looks.{look_asked, filling_asked, first_asked};

use crate::Sought;
use queue::{Channel, Look};

// The oldest entry of a kind and transaction.
pub fn looked_in(c: &Channel, q: Option<Sought>) -> Option<Look>
    ensures { result ≡ look_asked q (live c.now) }
{
    let q = q?;
    c.looked(q.kind, q.transaction)
}

// How many entries there are of a kind.
pub fn filling_in(c: &Channel, q: Option<u8>) -> usize
    ensures { result ≡ filling_asked q (live c.now) }
{
    q.map_or(0, |kind| c.filling(kind))
}

// Whether the oldest C of all is of a transaction; the kind that is sought does not matter.
pub fn first_c_in(c: &Channel, q: Option<Sought>) -> bool
    ensures { result ≡ first_asked q (live c.now) }
{
    q.is_some_and(|x| c.first_c(x.transaction))
}
