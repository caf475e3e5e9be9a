// The entries left in all channels of a lent state: only the counts are read.
ghost use Rattle.std.specs.Prelude.{◌≡◌, ℕ, true, ◌≤◌, get_or};
ghost use Rattle.queue.specs.Packing.{channel_places};
ghost use Rattle.network.specs.Shapes.{no_channel};
ghost use Rattle.network.specs.Soundness.{sound};
ghost use Rattle.lent_states.specs.Held.{held};

use chassis::MOST_CHANNELS;
use network::State;
use queue::Channel;

// Of the array itself: a proof knows its length, and not that of one behind a lent state.
fn held_in(channels: &[Channel; MOST_CHANNELS]) -> u32
    requires { (i : ℕ) → (get_or channels.now i no_channel).count ≤ channel_places }
    ensures { result ≡ held channels.now }
{
    let mut sum: u32 = 0;
    for c in channels {
        sum += c.count as u32;
    }
    sum
}

pub fn entries_left_in(s: &State) -> u32
    requires { sound s.now ≡ true }
    ensures { result ≡ held s.now.channels }
{
    held_in(&s.channels)
}
