// What waits: entries, and the channel that holds them oldest first.

#![tactic(auto)]

ghost use Rattle.std.specs.Prelude.{◌<◌, ◌-◌, min, ◌≡◌, drop};
ghost use Rattle.base.specs.Lists.{all, find};
ghost use Rattle.queue.specs.Entries.{P, zero_entry, is_kind, is_named, marked, as_kind, is_zero_entry};
ghost use Rattle.queue.specs.Queues.{filling, first_C};
ghost use Rattle.queue.specs.Packing.{live, zero_channel, channel_places};
ghost use Rattle.queue.specs.code.Changes.{look_of, match_of};
ghost use Rattle.queue.specs.code.Methods.{place_of, place_of_matching, added_to, removed_at, marked_at, changed_to};

use chassis::Agent;

// A transaction is named by its master and a number.
#[derive(Clone, Copy, Debug, PartialEq, Eq)]
pub struct Transaction {
    pub master: Agent,
    pub number: u16,
}

// `kind` is 1 (P posted), 2 (R request) or 3 (C completion); 0 is an unused place. It stays a number, and no enum: a state
// that a caller hands in may hold any byte here, and is_sound answers for any state (ground 16). (The transaction stands
// first, so that an entry is 8 bytes.)
#[derive(Clone, Copy, Debug, PartialEq, Eq)]
pub struct Entry {
    pub transaction: Transaction,
    pub kind: u8,
    pub target: Agent,
    pub write: bool,
    pub committed: bool,
}

// A channel holds up to 24 entries.
pub const CHANNEL_PLACES: usize = 24;

const LAST_PLACE: usize = CHANNEL_PLACES - 1;

// Its entries, oldest first, and their number. (Memory is fixed, and a state that is not sound may count more than there are: ground 16.)
#[derive(Clone, Copy, Debug, PartialEq, Eq)]
pub struct Channel {
    pub entries: [Entry; CHANNEL_PLACES],
    pub count: usize,
}

// What a channel shows of the oldest entry of a kind and transaction: whether an older P stands before it, and the entry.
#[derive(Clone, Copy, Debug, PartialEq, Eq)]
pub struct Look {
    pub behind: bool,
    pub entry: Entry,
}

// What an event does to one channel. The entry that is taken out or marked is named by its kind and transaction; or it is
// the C that matches a request.
#[derive(Clone, Copy, Debug, PartialEq, Eq)]
pub enum Change {
    Nothing,
    Add(Entry),
    TakeOut(Entry),
    TakeMatching(Entry),
    Mark(Entry),
}

// The kinds of entry: posted, request, completion.
pub const P: u8 = 1;

pub const R: u8 = 2;

pub const C: u8 = 3;

impl Entry {
    pub fn none() -> Entry
        ensures { result ≡ zero_entry }
    {
        Entry {
            transaction: Transaction {
                master: Agent(0),
                number: 0,
            },
            kind: 0,
            target: Agent(0),
            write: false,
            committed: false,
        }
    }

    pub fn is_kind(self, kind: u8) -> bool
        ensures { result ≡ is_kind kind self }
    {
        self.kind == kind
    }

    #[tactic(auto, unfolding(crate::specs::Entries::is_named))]
    pub fn is_named(self, kind: u8, t: Transaction) -> bool
        ensures { result ≡ is_named kind t self }
    {
        self.kind == kind && self.transaction == t
    }

    #[tactic(auto, unfolding(crate::specs::Entries::marked))]
    pub fn marked(mut self) -> Entry
        ensures { result ≡ marked self }
    {
        self.committed = true;
        self
    }

    #[tactic(auto, unfolding(crate::specs::Entries::as_kind))]
    pub fn as_kind(mut self, kind: u8) -> Entry
        ensures { result ≡ as_kind kind self }
    {
        self.kind = kind;
        self.committed = false;
        self
    }

    #[tactic(auto, unfolding(crate::specs::Entries::is_zero_entry))]
    pub fn is_zero(self) -> bool
        ensures { result ≡ is_zero_entry self }
    {
        self == Entry::none()
    }
}

// How many places are gone through: a channel that is not sound may claim more entries than it has places.
pub fn places(count: usize) -> usize
    ensures { result ≡ min count channel_places }
{
    count.min(CHANNEL_PLACES)
}

// A channel that is not sound may hold an entry and count none.
pub fn one_less(n: usize) -> usize
    ensures { result ≡ n - 1 }
{
    n.saturating_sub(1)
}

// The oldest entry of a kind and transaction. One walk: a P that is passed before the entry is older than it.
fn look_in(entries: &[Entry], kind: u8, t: Transaction) -> Option<Look>
    ensures { result ≡ look_of kind t entries.now }
{
    let mut behind = false;
    for x in entries {
        if x.is_named(kind, t) {
            return Some(Look { behind, entry: *x });
        }
        behind = behind | x.is_kind(P);
    }
    None
}

impl Channel {
    pub fn empty() -> Channel
        ensures { result ≡ zero_channel }
    {
        Channel {
            entries: [Entry::none(); CHANNEL_PLACES],
            count: 0,
        }
    }

    // The entries that it holds.
    pub fn live(&self) -> &[Entry]
        ensures { result.now ≡ live self.now }
    {
        &self.entries[..places(self.count)]
    }

    // An event that names an entry means the oldest one of that kind and transaction.
    #[tactic(auto, unfolding(crate::specs::code::Methods::place_of))]
    pub fn found(&self, kind: u8, t: Transaction) -> Option<usize>
        ensures { result ≡ place_of kind t self.now }
    {
        self.live().iter().position(|x| x.is_named(kind, t))
    }

    // The oldest of that name, and whether an older P stands before it.
    pub fn looked(&self, kind: u8, t: Transaction) -> Option<Look>
        ensures { result ≡ look_of kind t (live self.now) }
    {
        look_in(self.live(), kind, t)
    }

    // The oldest one that matches a request. It is found by originating master and number, so by the request's own name.
    #[tactic(auto, unfolding(crate::specs::code::Changes::look_of, crate::specs::code::Changes::match_of, crate::specs::Entries::is_named, crate::specs::Entries::matches))]
    pub fn matching(&self, kind: u8, request: Entry) -> Option<Look>
        ensures { result ≡ match_of kind request (live self.now) }
    {
        self.looked(kind, request.transaction)
    }

    // Its place.
    #[tactic(auto, unfolding(crate::specs::code::Methods::place_of, crate::specs::code::Methods::place_of_matching, crate::specs::Entries::is_named, crate::specs::Entries::matches))]
    pub fn found_matching(&self, kind: u8, request: Entry) -> Option<usize>
        ensures { result ≡ place_of_matching kind request self.now }
    {
        self.found(kind, request.transaction)
    }

    // Each kind is counted by itself.
    #[tactic(auto, using(crate::proofs::Plainly::counted))]
    pub fn filling(&self, kind: u8) -> usize
        ensures { result ≡ filling (is_kind kind) (live self.now) }
    {
        self.live().iter().filter(|x| x.is_kind(kind)).count()
    }

    // The oldest one of a kind.
    #[tactic(auto, unfolding(base::specs::Lists::find))]
    fn oldest(&self, kind: u8) -> Option<Entry>
        ensures { result ≡ find (is_kind kind) (live self.now) }
    {
        self.live().iter().copied().find(|x| x.is_kind(kind))
    }

    // It is the oldest C of all.
    #[tactic(auto, unfolding(crate::specs::Queues::first_C))]
    pub fn first_c(&self, t: Transaction) -> bool
        ensures { result ≡ first_C t (live self.now) }
    {
        self.oldest(C).is_some_and(|x| x.is_named(C, t))
    }

    #[tactic(auto, unfolding(base::specs::Lists::all))]
    pub fn unused_are_zero(&self) -> bool
        ensures { result ≡ all is_zero_entry (drop self.now.count self.now.entries) }
    {
        self.entries.iter().skip(self.count).all(|x| x.is_zero())
    }

    // Behind all others. A channel that has no place left stays as it is, so that no caller has to show that there is room.
    #[tactic(auto, unfolding(crate::specs::code::Methods::added_to))]
    fn add(&mut self, x: Entry)
        ensures { self.new ≡ added_to self.old x }
    {
        let n = self.count;
        if n < CHANNEL_PLACES {
            self.entries[n] = x;
            self.count = n + 1;
        }
    }

    // The gap goes to the end of the array and not of the live entries: so the unused places need not be known to be zero.
    #[tactic(auto, unfolding(crate::specs::code::Methods::removed_at))]
    fn remove(&mut self, i: usize)
        requires { i < channel_places }
        ensures { self.new ≡ removed_at self.old i }
    {
        self.entries.copy_within(i + 1.., i);
        self.entries[LAST_PLACE] = Entry::none();
        self.count = one_less(self.count);
    }

    #[tactic(auto, unfolding(crate::specs::code::Methods::marked_at))]
    fn mark(&mut self, i: usize)
        requires { i < channel_places }
        ensures { self.new ≡ marked_at self.old i }
    {
        self.entries[i] = self.entries[i].marked();
    }

    // What an event does to it, where it lies: the only code that changes a channel.
    #[tactic(auto, using(base::proofs::Walks::length_mapped, crate::proofs::Placed::found_bound, crate::proofs::Placed::matching_bound), unfolding(crate::specs::code::Methods::changed_to))]
    pub fn change(&mut self, ch: Change)
        ensures { self.new ≡ changed_to self.old ch }
    {
        match ch {
            Change::Nothing => {}
            Change::Add(x) => self.add(x),
            Change::TakeOut(x) => {
                if let Some(i) = self.found(x.kind, x.transaction) {
                    self.remove(i);
                }
            }
            Change::TakeMatching(r) => {
                if let Some(i) = self.found_matching(C, r) {
                    self.remove(i);
                }
            }
            Change::Mark(x) => {
                if let Some(i) = self.found(x.kind, x.transaction) {
                    self.mark(i);
                }
            }
        }
    }

    // The same by value: the channel goes in, and the next one comes out.

    pub fn added(mut self, x: Entry) -> Channel
        ensures { result ≡ added_to self x }
    {
        self.add(x);
        self
    }

    pub fn removed(mut self, i: usize) -> Channel
        requires { i < channel_places }
        ensures { result ≡ removed_at self i }
    {
        self.remove(i);
        self
    }

    pub fn marked_at(mut self, i: usize) -> Channel
        requires { i < channel_places }
        ensures { result ≡ marked_at self i }
    {
        self.mark(i);
        self
    }

    pub fn changed(mut self, ch: Change) -> Channel
        ensures { result ≡ changed_to self ch }
    {
        self.change(ch);
        self
    }
}
