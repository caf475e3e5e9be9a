// What is read off a record before any channel is looked at.
ghost use Rattle.std.specs.Prelude.{◌≡◌};
ghost use Rattle.read_events.specs.Frames.{begin_frame, named_frame, event_frame, frame};

use crate::Frame;
use base::Refusal;
use chassis::channels::{has_agent, has_chan};
use chassis::{Agent, Chan, Table};
use events::Event;
use queue::Transaction;

fn begin_frame(t: Table, e: Event, m: Agent, a: Agent) -> Result<Frame, Refusal>
    ensures { result ≡ begin_frame t e m a }
{
    if !has_agent(t, m) || !has_agent(t, a) {
        return Err(Refusal::NotInTable);
    }
    if m == a {
        return Err(Refusal::TargetIsMaster);
    }
    Ok(Frame {
        event: e,
        at: Chan(m.0), // its master channel
        master: m,
    })
}

fn named_frame(t: Table, e: Event, n: Chan, x: Transaction) -> Result<Frame, Refusal>
    ensures { result ≡ named_frame t e n x }
{
    if !has_chan(t, n) || !has_agent(t, x.master) {
        return Err(Refusal::NotInTable);
    }
    Ok(Frame {
        event: e,
        at: n,
        master: x.master,
    })
}

// 2 and 3, with the event's numbers.
pub fn event_frame(t: Table, e: Event) -> Result<Frame, Refusal>
    ensures { result ≡ event_frame t e }
{
    let a = e.account();
    match a.target {
        Some(target) => begin_frame(t, e, a.name.master, target),
        None => named_frame(t, e, a.channel, a.name),
    }
}

// 1, 2 and 3.
pub fn record_frame(t: Table, d: Option<Event>) -> Result<Frame, Refusal>
    ensures { result ≡ frame t d }
{
    event_frame(t, d.ok_or(Refusal::UnfitRecord)?)
}
