// A record judged on a lent state: channels are looked at where they lie, and only as far as the record's kind asks.
ghost use Rattle.std.specs.Prelude.{◌≡◌, true};
ghost use Rattle.chassis.specs.Channels.{has_agent, has_chan};
ghost use Rattle.chassis.specs.Routes.{next_place};
ghost use Rattle.network.specs.Nets.{view};
ghost use Rattle.network.specs.Soundness.{sound};
ghost use Rattle.play_events.specs.Notices.{FindsNext};
ghost use Rattle.lent_plays.specs.Asks.{InPlace, plan_seen};
ghost use Rattle.lent_plays.specs.Judged.{judged_of};

use crate::Judged;
use crate::questions::{asks_of, is_full, sought_for};
use crate::shapes::shape_in;
use base::Refusal;
use chassis::{Agent, Chan, NextPlace, Table};
use events::Event;
use find_routes::ways::Ways;
use judge_events::Plan;
use judge_events::judges::judge;
use lent_states::channels::{filling_at, first_c_at, look_at};
use lent_states::leaves::{count_in, table_in};
use network::State;
use play_events::Notice;
use play_events::notices::{beside, next_of};
use read_events::frames::record_frame;
use read_events::{Frame, Sight};

pub fn plan_in(s: &State, t: Table, f: Frame, n: Notice) -> Result<Plan, Refusal>
    requires { InPlace f n }
    ensures { result ≡ plan_seen s.now t f n }
{
    let k = asks_of(t, f, n);
    let filled = filling_at(s, k.room, k.counted);
    let waits = look_at(s, n.ahead, k.waits);
    let answer = look_at(s, n.answer, k.answers);
    let oldest = first_c_at(s, f.at, k.oldest);
    let full = is_full(t, k.counted, filled);
    let sight = Sight {
        full,
        waits: waits.is_some(),
        answer,
        oldest,
    };
    let count = count_in(s, f.master);
    judge(t, f.event, count, n.look, n.next, sight)
}

// What a record does, or why it is refused. `next` finds the next place of an entry.
pub fn judged_in<F: Fn(Table, Chan, Agent) -> NextPlace>(
    s: &State,
    d: Option<Event>,
    next: F,
) -> Result<Judged, Refusal>
    requires is_sound { sound s.now ≡ true }
    requires finds { FindsNext (F.pre next) (F.post next) s.now.table }
    ensures { result ≡ judged_of (view s.now) d }
{
    shape_in(s);
    let t = table_in(s);
    let frame = record_frame(t, d)?;
    let look = look_at(s, frame.at, sought_for(frame));
    let next = next_of(t, frame, look, next);
    let n = beside(t, frame, look, next);
    let plan = plan_in(s, t, frame, n)?;
    Ok(Judged { frame, next, plan })
}

// The same, looked up in lent ways.
pub fn judged_by(s: &State, ways: &Ways, d: Option<Event>) -> Result<Judged, Refusal>
    requires { (sound s.now ≡ true) × (ways.now.table ≡ s.now.table) }
    ensures { result ≡ judged_of (view s.now) d }
{
    let look_up = |t: Table, n: Chan, a: Agent|
        requires { (ways.now.table ≡ t) × (has_chan t n ≡ true) × (has_agent t a ≡ true) }
        ensures { result ≡ next_place t n a }
    { ways.next(n, a) };
    judged_in(s, d, look_up)
}
