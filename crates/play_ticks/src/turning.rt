// A turn that says nothing, where no record was judged yet.
ghost use Rattle.std.specs.Prelude.{◌≡◌};
ghost use Rattle.play_ticks.specs.Turns.{no_turn};

use crate::Turn;
use chassis::Agent;
use compare_events::feet::no_foot;
use judge_events::judges::no_plan;

pub fn no_turn() -> Turn
    ensures { result ≡ no_turn }
{
    Turn {
        plan: no_plan(),
        master: Agent(0),
        foot: no_foot(),
    }
}
