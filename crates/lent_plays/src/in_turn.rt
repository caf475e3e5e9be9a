// Records played one by one on a state that is handed over.
ghost use Rattle.std.specs.Prelude.{◌≡◌, true, ◌++◌, ◌/◌, ◌≤◌, length, drop};
ghost use Rattle.network.specs.Soundness.{sound};
ghost use Rattle.events.specs.Records.{records};
ghost use Rattle.play_events.specs.Plays.{played_state, played_refusals, played_values};

use crate::stepping::play_in;
use events::answers::{answer_value, refusal_number};
use events::records::record_at;
use find_routes::ways::Ways;
use network::State;

// The records `r`, eight bytes each; refusals, by document 01's numbers, and values go to the lent lists. (Two lists of numbers, as callers
// lend them: another type would ask more of them.)
pub fn play(s: State, r: &[u8], refusals: &mut [u8], values: &mut [u16]) -> State
    requires { (sound s ≡ true) × (length r.now / 8 ≤ length refusals.old) × (length r.now / 8 ≤ length values.old) }
    ensures value { result ≡ played_state s (records r.now) }
    ensures refusals_after { refusals.new ≡ played_refusals s (records r.now) ++ drop (length r.now / 8) refusals.old }
    ensures values_after { values.new ≡ played_values s (records r.now) ++ drop (length r.now / 8) values.old }
{
    let ways = Ways::of(s.table);
    let mut state = s;
    let many = r.len() / 8;
    for i in 0..many {
        let answer = play_in(&mut state, &ways, record_at(r, i));
        refusals[i] = refusal_number(answer);
        values[i] = answer_value(answer);
    }
    state
}
