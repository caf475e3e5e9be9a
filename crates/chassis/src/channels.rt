// Channels and their buses.

ghost use Rattle.std.specs.Prelude.{◌≡◌, true, ◌<◌};
ghost use Rattle.chassis.specs.Channels.{has_agent, has_chan, is_master, goes_forth, home, out_bus, opposite};
ghost use Rattle.chassis.specs.Tables.{table_passes};
ghost use Rattle.chassis.specs.Capacities.{most_agents};

use crate::{Agent, Bus, Chan, Table};

pub fn has_agent(t: Table, a: Agent) -> bool
    ensures { result ≡ has_agent t a }
{
    a.0 < t.agents
}

pub fn has_chan(t: Table, n: Chan) -> bool
    ensures { result ≡ has_chan t n }
{
    (n.0 as usize) < t.agents as usize + 2 * (t.bridges as usize)
}

pub fn is_master(t: Table, n: Chan) -> bool
    ensures { result ≡ is_master t n }
{
    n.0 < t.agents
}

pub fn home(t: Table, a: Agent) -> Bus
    requires { a.0 < most_agents }
    ensures { result ≡ home t a }
{
    t.homes[a.0 as usize]
}

// A master channel is at no distance from the agents, as differences are counted in the definitions.
fn goes_forth(t: Table, n: Chan) -> bool
    ensures { result ≡ goes_forth t n }
{
    n.0 < t.agents || (n.0 - t.agents) % 2 == 0
}

#[tactic(auto, using(base::proofs::Cases::cases), unfolding(crate::specs::Channels::out_bus))]
pub fn out_bus(t: Table, n: Chan) -> Bus
    requires { (table_passes t ≡ true) × (has_chan t n ≡ true) }
    ensures { result ≡ out_bus t n }
{
    if is_master(t, n) {
        return home(t, Agent(n.0));
    }
    let b = t.pairs[((n.0 - t.agents) / 2) as usize];
    if goes_forth(t, n) { b.second } else { b.first }
}

#[tactic(auto, using(base::proofs::Cases::cases), unfolding(crate::specs::Channels::opposite))]
pub fn opposite(t: Table, n: Chan) -> Chan
    requires { n.0 < 255 }
    ensures { result ≡ opposite t n }
{
    if goes_forth(t, n) {
        Chan(n.0 + 1)
    } else {
        Chan(n.0 - 1)
    }
}
