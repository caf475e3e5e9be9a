// From a lent state to one of its channels, which is lent on where it lies.
ghost use Rattle.std.specs.Prelude.{◌≡◌, ◌<◌};
ghost use Rattle.chassis.specs.Capacities.{most_channels};
ghost use Rattle.chassis.specs.Numbers.{chan};
ghost use Rattle.queue.specs.Packing.{live};
ghost use Rattle.network.specs.code.Acts.{channel_at, acted_on};
ghost use Rattle.lent_channels.specs.Looks.{look_asked, filling_asked, first_asked};

use chassis::Chan;
use lent_channels::Sought;
use lent_channels::changes::change_in;
use lent_channels::looks::{filling_in, first_c_in, looked_in};
use network::{Act, State};
use queue::Look;

// The channel at a place of the array.
pub fn chan_of(i: usize) -> Chan
    requires { i < most_channels }
    ensures { result ≡ chan i }
{
    Chan(i as u8)
}

pub fn look_at(s: &State, n: Chan, q: Option<Sought>) -> Option<Look>
    requires { n.0 < most_channels }
    ensures { result ≡ look_asked q (live (channel_at s.now n)) }
{
    looked_in(&s.channels[n.0 as usize], q)
}

pub fn filling_at(s: &State, n: Chan, q: Option<u8>) -> usize
    requires { n.0 < most_channels }
    ensures { result ≡ filling_asked q (live (channel_at s.now n)) }
{
    filling_in(&s.channels[n.0 as usize], q)
}

pub fn first_c_at(s: &State, n: Chan, q: Option<Sought>) -> bool
    requires { n.0 < most_channels }
    ensures { result ≡ first_asked q (live (channel_at s.now n)) }
{
    first_c_in(&s.channels[n.0 as usize], q)
}

#[tactic(auto, unfolding(network::specs::code::Acts::acted_on))]
pub fn act_at(s: &mut State, a: Act)
    requires { a.at.0 < most_channels }
    ensures { s.new ≡ acted_on s.old a }
{
    change_in(&mut s.channels[a.at.0 as usize], a.change);
}
