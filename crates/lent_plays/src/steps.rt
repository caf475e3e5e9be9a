// One step on a state that is handed over: on record bytes, where 16 and 18 are asked first; and on a step record, where 16 is asked
// first, or not, for whoever holds a sound state.
ghost use Rattle.std.specs.Prelude.{◌≡◌, true};
ghost use Rattle.network.specs.Soundness.{sound};
ghost use Rattle.events.specs.Steps.{inner_step, step_on, step};

use crate::stepping::{play_in, step_in};
use base::Refusal;
use events::{Outcome, Step};
use find_routes::ways::Ways;
use lent_states::soundness::is_sound_in;
use network::State;

// The record in `b`, whatever the state and however many bytes are handed in.
pub fn step(s: State, b: &[u8]) -> Outcome
    ensures { result ≡ step s b.now }
{
    let mut state = s;
    let answer = step_in(&mut state, b);
    Outcome { answer, state }
}

// The event of a step record, on a sound state.
pub fn inner_step(s: State, x: Step) -> Outcome
    requires { sound s ≡ true }
    ensures { result ≡ inner_step s x.event }
{
    let ways = Ways::of(s.table);
    let mut state = s;
    let answer = play_in(&mut state, &ways, Some(x.event));
    Outcome { answer, state }
}

// The same in any state.
pub fn step_on(s: State, x: Step) -> Outcome
    ensures { result ≡ step_on s x.event }
{
    if !is_sound_in(&s) {
        return Outcome {
            answer: Err(Refusal::NotSound),
            state: s,
        };
    }
    inner_step(s, x)
}
