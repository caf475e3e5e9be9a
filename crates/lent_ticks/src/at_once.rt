// The tick on a state that is handed over.
ghost use Rattle.std.specs.Prelude.{◌≡◌, true, ◌/◌, ◌%◌, ◌≤◌, length};
ghost use Rattle.chassis.specs.Capacities.{most_record_bytes};
ghost use Rattle.network.specs.Soundness.{sound};
ghost use Rattle.ticks.specs.Ticks.{tick};

use crate::ticking::{play_tick_in, tick_in};
use network::State;
use ticks::TickOutcome;

pub fn play_tick(s: State, r: &[u8], answers: &mut [u16]) -> TickOutcome
    requires { (sound s ≡ true) × (length r.now % 8 ≡ 0) × (length r.now ≤ most_record_bytes) × (length r.now / 8 ≤ length answers.old) }
    ensures answer_value { result.answer ≡ (tick s r.now answers.old).answer }
    ensures state_value { result.state ≡ (tick s r.now answers.old).state }
    ensures answers_after { answers.new ≡ (tick s r.now answers.old).answers }
{
    let mut state = s;
    let answer = play_tick_in(&mut state, r, answers);
    TickOutcome { answer, state }
}

pub fn tick(s: State, r: &[u8], answers: &mut [u16]) -> TickOutcome
    ensures answer_value { result.answer ≡ (tick s r.now answers.old).answer }
    ensures state_value { result.state ≡ (tick s r.now answers.old).state }
    ensures answers_after { answers.new ≡ (tick s r.now answers.old).answers }
{
    let mut state = s;
    let answer = tick_in(&mut state, r, answers);
    TickOutcome { answer, state }
}
