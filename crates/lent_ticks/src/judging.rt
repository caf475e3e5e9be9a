// The records of a tick judged, each against one lent state, in which nothing is stored.
ghost use Rattle.std.specs.Prelude.{◌≡◌, true, ◌/◌, ◌≤◌, length};
ghost use Rattle.chassis.specs.Capacities.{most_record_bytes};
ghost use Rattle.network.specs.Nets.{view};
ghost use Rattle.network.specs.Soundness.{sound};
ghost use Rattle.events.specs.Records.{records};
ghost use Rattle.play_ticks.specs.Turns.{turns_made, laid_over, judged_answer};
ghost use Rattle.lent_ticks.specs.Judged.{turn_told};

use crate::leaves::{places_in, put_turn};
use crate::pairs::first_pair_in;
use base::Refusal;
use compare_events::feet::foot_of;
use events::Event;
use events::records::record_at;
use find_routes::ways::Ways;
use lent_plays::judging::judged_by;
use lent_plays::shapes::shape_in;
use lent_states::leaves::table_in;
use network::State;
use play_ticks::{Turn, Turns};
use ticks::TickRefusal;

pub fn many_in(r: &[u8]) -> usize
    ensures { result ≡ length r.now / 8 }
{
    r.len() / 8
}

// What judging a record leaves.
fn turn_in(s: &State, ways: &Ways, d: Option<Event>) -> Result<Turn, Refusal>
    requires { (sound s.now ≡ true) × (ways.now.table ≡ s.now.table) }
    ensures { result ≡ turn_told (view s.now) d }
{
    let j = judged_by(s, ways, d)?;
    shape_in(s);
    Ok(Turn {
        plan: j.plan,
        master: j.frame.master,
        foot: foot_of(table_in(s), j.frame.event, j.next),
    })
}

// The turns lie in the first places, up to the first record that is refused alone; the places behind them are left.
pub fn judge_all_in(s: &State, ways: &Ways, r: &[u8], turns: &mut Turns) -> Result<(), TickRefusal>
    requires { (sound s.now ≡ true) × (ways.now.table ≡ s.now.table) × (length r.now ≤ most_record_bytes) }
    ensures { (result ≡ judged_answer (view s.now) (records r.now)) × (turns.new.all ≡ laid_over (turns_made (view s.now) (records r.now)) turns.old.all) }
{
    places_in(turns);
    let many = many_in(r);
    for i in 0..many {
        match turn_in(s, ways, record_at(r, i)) {
            Ok(x) => put_turn(turns, i, x),
            Err(ground) => {
                return Err(TickRefusal::Refused {
                    ground,
                    record: i as u8,
                });
            }
        }
    }
    first_pair_in(turns, many)
}
