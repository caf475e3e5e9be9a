// What a change makes of a lent channel, where it lies.
ghost use Rattle.std.specs.Prelude.{◌≡◌};
ghost use Rattle.queue.specs.code.Methods.{changed_to};
ghost use Rattle.lent_channels.specs.Places.{place_for};

use queue::{C, Change, Channel};

// Where the entry stands that a change takes out or marks.
pub fn place_in(c: &Channel, ch: Change) -> Option<usize>
    ensures { result ≡ place_for ch c.now }
{
    match ch {
        Change::Nothing | Change::Add(_) => None,
        Change::TakeOut(x) | Change::Mark(x) => c.found(x.kind, x.transaction),
        Change::TakeMatching(r) => c.found_matching(C, r),
    }
}

// Where nothing changes nothing is gone through or stored.
pub fn change_in(c: &mut Channel, ch: Change)
    ensures { c.new ≡ changed_to c.old ch }
{
    c.change(ch);
}
