// A table with its hop table: what lies next on a way, and what lies on it or against it, by look-ups.

ghost use Rattle.std.specs.Prelude.{◌≡◌, true, map, ◌<◌};
ghost use Rattle.chassis.specs.Channels.{has_agent, has_chan};
ghost use Rattle.chassis.specs.Routes.{way, channel_of, next_place, bridge_channels, among, on_the_way, opposes_the_way};
ghost use Rattle.chassis.specs.Tables.{table_passes};
ghost use Rattle.find_routes.specs.Hops.{hops_of};

use crate::hops::{hops, towards};
use chassis::channels::{home, is_master, opposite, out_bus};
use chassis::{Agent, Bus, Chan, NextPlace, Table};

// A table that passes, and its hop table: made once for many questions.
#[derive(Drop)]
pub struct Ways {
    pub table: Table,
    pub hops: [u8; 256],
    pub ghost passes: { table_passes table ≡ true },
    pub ghost tabled: { hops ≡ hops_of table },
}

impl Ways {
    pub fn of(t: Table) -> Ways
        requires { table_passes t ≡ true }
        ensures { result.table ≡ t }
    {
        Ways {
            table: t,
            hops: hops(t),
        }
    }

    // "Until the out-bus is t's bus; then the next place is t itself."
    pub fn next(&self, n: Chan, a: Agent) -> NextPlace
        requires { (has_chan self.now.table n ≡ true) × (has_agent self.now.table a ≡ true) }
        ensures { result ≡ next_place self.now.table n a }
    {
        let here = out_bus(self.table, n);
        let there = home(self.table, a);
        if here == there {
            return NextPlace::Target;
        }
        NextPlace::Through(towards(&self.hops, here, there))
    }

    // "The route is followed bus by bus, each step one bridge nearer": a look-up for each, in a loop.
    fn crosses(&self, a: Bus, b: Bus, n: Chan) -> bool
        requires { (a.0 < self.now.table.buses) × (b.0 < self.now.table.buses) }
        ensures { result ≡ among n (map (channel_of self.now.table) (way self.now.table a b)) }
    {
        let mut here = a;
        while here != b {
            let c = towards(&self.hops, here, b);
            if n == c {
                return true;
            }
            here = out_bus(self.table, c);
        }
        false
    }

    // No way crosses a master channel.
    fn is_crossed(&self, m: Agent, a: Agent, n: Chan) -> bool
        requires { (has_agent self.now.table m ≡ true) × (has_agent self.now.table a ≡ true) }
        ensures { result ≡ among n (bridge_channels self.now.table m a) }
    {
        !is_master(self.table, n) && self.crosses(home(self.table, m), home(self.table, a), n)
    }

    // "The way from agent m to agent t starts in channel m." (The two numbers are compared: an agent is no channel.)
    pub fn on_the_way(&self, m: Agent, a: Agent, n: Chan) -> bool
        requires { (has_agent self.now.table m ≡ true) × (has_agent self.now.table a ≡ true) }
        ensures { result ≡ on_the_way self.now.table m a n }
    {
        n.0 == m.0 || self.is_crossed(m, a, n)
    }

    // N is the opposite of a channel exactly where that channel is N's opposite: so N is turned round, not the way.
    pub fn opposes_the_way(&self, m: Agent, a: Agent, n: Chan) -> bool
        requires { (has_agent self.now.table m ≡ true) × (has_agent self.now.table a ≡ true) × (n.0 < 255) }
        ensures { result ≡ opposes_the_way self.now.table m a n }
    {
        !is_master(self.table, n) && self.is_crossed(m, a, opposite(self.table, n))
    }
}
