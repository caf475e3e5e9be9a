// The tick on a lent state, whatever the state, the bytes and the answer list; and for whoever lends a sound state and has asked 18 and 17.
ghost use Rattle.std.specs.Prelude.{◌≡◌, true, ◌/◌, ◌%◌, ◌≤◌, length, replicate};
ghost use Rattle.chassis.specs.Capacities.{most_records, most_record_bytes};
ghost use Rattle.network.specs.Soundness.{sound};
ghost use Rattle.ticks.specs.Ticks.{tick};
ghost use Rattle.play_ticks.specs.Turns.{no_turn};
ghost use Rattle.lent_ticks.specs.Firsts.{tick_first};

use crate::carrying::carry_in;
use crate::judging::{judge_all_in, many_in};
use base::Refusal;
use chassis::{MOST_RECORD_BYTES, MOST_RECORDS};
use find_routes::ways::Ways;
use lent_plays::shapes::shape_in;
use lent_states::leaves::table_in;
use lent_states::soundness::is_sound_in;
use network::State;
use play_ticks::Turns;
use play_ticks::turning::no_turn;
use ticks::TickRefusal;

// 16, 18, 17.
#[tactic(auto, unfolding(crate::specs::Firsts::tick_first))]
fn tick_first(r: &[u8], sound: bool, room: usize) -> Result<(), Refusal>
    ensures { result ≡ tick_first sound (length r.now) room }
{
    if !sound {
        return Err(Refusal::NotSound);
    }
    if r.len() % 8 != 0 || MOST_RECORD_BYTES < r.len() {
        return Err(Refusal::NotRecords);
    }
    if room < many_in(r) {
        return Err(Refusal::ShortList);
    }
    Ok(())
}

fn no_turns() -> Turns
    ensures { result ≡ record { all = replicate most_records no_turn } }
{
    Turns {
        all: [no_turn(); MOST_RECORDS],
    }
}

pub fn play_tick_in(s: &mut State, r: &[u8], answers: &mut [u16]) -> Result<(), TickRefusal>
    requires { (sound s.old ≡ true) × (length r.now % 8 ≡ 0) × (length r.now ≤ most_record_bytes) × (length r.now / 8 ≤ length answers.old) }
    ensures { (result ≡ (tick s.old r.now answers.old).answer) × (s.new ≡ (tick s.old r.now answers.old).state) × (answers.new ≡ (tick s.old r.now answers.old).answers) }
{
    shape_in(s);
    let ways = Ways::of(table_in(s));
    let mut turns = no_turns();
    judge_all_in(s, &ways, r, &mut turns)?;
    carry_in(s, &turns, answers, many_in(r));
    Ok(())
}

pub fn tick_in(s: &mut State, r: &[u8], answers: &mut [u16]) -> Result<(), TickRefusal>
    ensures { (result ≡ (tick s.old r.now answers.old).answer) × (s.new ≡ (tick s.old r.now answers.old).state) × (answers.new ≡ (tick s.old r.now answers.old).answers) }
{
    if let Err(ground) = tick_first(r, is_sound_in(s), answers.len()) {
        // A refusal by 16, 18 or 17 names record 0.
        return Err(TickRefusal::Refused { ground, record: 0 });
    }
    play_tick_in(s, r, answers)
}
