// One account of an event: all that its kind says by itself, read off in one place.
ghost use Rattle.std.specs.Prelude.{◌≡◌};
ghost use Rattle.events.specs.Accounts.{begins_with, names, account};

use crate::{Account, Event};
use chassis::{Agent, Chan};
use queue::{C, P, R, Transaction};

// An agent's master channel has its number. (A definition of the network's, and no conversion that a From would name.)
fn begins_with(kind: u8, m: Agent, a: Agent) -> Account
    ensures { result ≡ begins_with kind m a }
{
    Account {
        channel: Chan(m.0),
        name: Transaction {
            master: m,
            number: 0,
        },
        target: Some(a),
        kind,
        moves: false,
    }
}

fn names(kind: u8, n: Chan, t: Transaction, moves: bool) -> Account
    ensures { result ≡ names kind n t moves }
{
    Account {
        channel: n,
        name: t,
        target: None,
        kind,
        moves,
    }
}

impl Event {
    pub fn account(self) -> Account
        ensures { result ≡ account self }
    {
        match self {
            Event::BeginPosted { master, target } => begins_with(P, master, target),
            Event::BeginRead { master, target } => begins_with(R, master, target),
            Event::BeginWrite { master, target } => begins_with(R, master, target),
            Event::Commit {
                channel,
                transaction,
            } => names(R, channel, transaction, false),
            Event::Post {
                channel,
                transaction,
            } => names(P, channel, transaction, true),
            Event::Latch {
                channel,
                transaction,
            } => names(R, channel, transaction, true),
            Event::Complete {
                channel,
                transaction,
            } => names(R, channel, transaction, true),
            Event::DropRequest {
                channel,
                transaction,
            } => names(R, channel, transaction, false),
            Event::DropCompletion {
                channel,
                transaction,
            } => names(C, channel, transaction, false),
        }
    }
}
