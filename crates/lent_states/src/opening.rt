// A table checked, and the state that belongs to its answer written over a lent one, part by part: no state is copied.
ghost use Rattle.std.specs.Prelude.{◌≡◌};
ghost use Rattle.network.specs.Opening.{opened};

use base::Refusal;
use chassis::{MOST_AGENTS, Table};
use check_tables::tables::table_answer;
use network::{State, zero_table};
use queue::Channel;

// "A refused table gives its number and the all-zero state." (network::open hands over a state made anew, and has none to write over.)
#[tactic(auto, unfolding(network::specs::Opening::opened, network::specs::Opening::zero_state, network::specs::Nets::pack, network::specs::Nets::empty_net))]
pub fn open_in(s: &mut State, t: Table, stray: bool) -> Result<(), Refusal>
    ensures { (s.new ≡ (opened t stray).state) × (result ≡ (opened t stray).answer) }
{
    let answer = table_answer(t, stray);
    s.table = if answer.is_ok() { t } else { zero_table() };
    s.channels.fill(Channel::empty());
    s.begins = [0; MOST_AGENTS];
    answer
}
