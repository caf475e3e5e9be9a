// A single step on a lent state, whatever the state and however many bytes are handed in; and one record of many, for whoever lends a
// sound state with its table's ways.
ghost use Rattle.std.specs.Prelude.{◌≡◌, true};
ghost use Rattle.network.specs.Soundness.{sound};
ghost use Rattle.events.specs.Steps.{record_step, step};

use crate::judging::{judged_by, judged_in};
use crate::settling::settle_in;
use crate::shapes::shape_in;
use base::Refusal;
use events::Event;
use events::records::decode;
use find_routes::routes::next_place;
use find_routes::ways::Ways;
use network::State;
use network::soundness::is_sound_in;

pub fn step_in(s: &mut State, b: &[u8]) -> Result<u16, Refusal>
    ensures { (s.new ≡ (step s.old b.now).state) × (result ≡ (step s.old b.now).answer) }
{
    if !is_sound_in(s) {
        return Err(Refusal::NotSound);
    }
    if b.len() != 8 {
        return Err(Refusal::NotRecords);
    }
    shape_in(s);
    let j = judged_in(s, decode(b), next_place)?;
    settle_in(s, j.frame.master, j.plan);
    Ok(j.plan.value)
}

// One record played. A refused one leaves without touching anything.
pub fn play_in(s: &mut State, ways: &Ways, d: Option<Event>) -> Result<u16, Refusal>
    requires { (sound s.old ≡ true) × (ways.now.table ≡ s.old.table) }
    ensures { (s.new ≡ (record_step s.old d).state) × (result ≡ (record_step s.old d).answer) }
{
    shape_in(s);
    let j = judged_by(s, ways, d)?;
    settle_in(s, j.frame.master, j.plan);
    Ok(j.plan.value)
}
