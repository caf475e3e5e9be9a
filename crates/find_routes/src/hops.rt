// The first channel of a way: found by a loop over the bridges, or looked up in a table of them.

ghost use Rattle.std.specs.Prelude.{◌≡◌, true, cond, ◌+◌, ◌*◌, ◌<◌, ◌≤◌, length, get_or, eqb};
ghost use Rattle.chassis.specs.Capacities.{most_agents};
ghost use Rattle.chassis.specs.Numbers.{chan};
ghost use Rattle.chassis.specs.Ways.{hop};
ghost use Rattle.chassis.specs.Routes.{way_over, channel_of, first_place};
ghost use Rattle.chassis.specs.Tables.{table_passes};
ghost use Rattle.check_tables.specs.Ladders.{InRange, ladder_of, Reachable};
ghost use Rattle.find_routes.specs.Hops.{hops_of};
ghost use Rattle.find_routes.specs.Crossings.{at, tabled, in_row, crossed, labelled, relabelled};

use chassis::{Bridge, Bus, Chan, NextPlace, Table};
use check_tables::labels::share_label;

// The end at which a bridge is entered, crossed forth or back.
fn near_end(p: Bridge, forth: bool) -> Bus
    ensures { result ≡ cond forth p.first p.second }
{
    if forth { p.first } else { p.second }
}

fn bridge_channel(t: Table, g: usize, forth: bool) -> Chan
    requires { (g < 15) × (t.agents ≤ most_agents) }
    ensures { result ≡ channel_of t (hop g forth) }
{
    let c = t.agents + 2 * (g as u8);
    Chan(if forth { c } else { c + 1 })
}

// Where the last bridge parts the two buses, the way to its near end comes first: that end is the goal then, with one
// bridge less. A loop, so that a long way takes no more stack than a short one.
pub fn next_hop(t: Table, l: &[u8; 256], k: usize, a: Bus, b: Bus) -> NextPlace
    requires { InRange t × (l.now ≡ ladder_of t) × Reachable t k a b }
    ensures { result ≡ first_place t (way_over t k a b) }
{
    let mut goal = b;
    for left in (0..k).rev() {
        if !share_label(l, left, a, goal) {
            let p = t.pairs[left];
            let forth = share_label(l, left, a, p.first);
            let near = near_end(p, forth);
            if a == near {
                return NextPlace::Through(bridge_channel(t, left, forth));
            }
            goal = near;
        }
    }
    NextPlace::Target
}

// v where x is y, else w. (A function, and no `if` where it is asked: there the compiler reads w only where it is chosen, and then does
// not take a row at once.)
fn chosen(x: u8, y: u8, v: u8, w: u8) -> u8
    ensures { result ≡ cond (eqb x y) v w }
{
    if x == y { v } else { w }
}

// Row a of the table: where bus a has the near end's label, one channel leads to all buses that have the far end's.
fn cross_from(h: &mut [u8; 256], labels: &[u8; 16], a: usize, near: Bus, far: Bus, c: Chan)
    requires { (length h.old ≡ 256) × (a < 16) × (near.0 < 16) × (far.0 < 16) }
    ensures { h.new ≡ tabled (in_row a (crossed labels.now near far c (at h.old)) (at h.old)) }
{
    let x = near.0 as usize;
    if labels[a] != labels[x] {
        return;
    }
    let z = labels[far.0 as usize];
    let v = if a == x { c.0 } else { h[16 * a + x] };
    for b in 0..16 {
        let i = 16 * a + b;
        h[i] = chosen(labels[b], z, v, h[i]);
    }
}

// A bridge crossed one way, from every bus on its near side. The labels are a copy: the compiler then sees that no store
// into the table changes them, and takes a row at once.
fn cross(h: &mut [u8; 256], labels: [u8; 16], near: Bus, far: Bus, c: Chan)
    requires { (length h.old ≡ 256) × (near.0 < 16) × (far.0 < 16) }
    ensures { h.new ≡ tabled (crossed labels near far c (at h.old)) }
{
    for a in 0..16 {
        cross_from(h, &labels, a, near, far, c);
    }
}

// Label q becomes p. (A loop: the proof of `labels.map` did not close.)
fn merged(labels: [u8; 16], p: u8, q: u8) -> [u8; 16]
    ensures { result ≡ labelled (relabelled labels p q) }
{
    let mut r = labels;
    for x in &mut r {
        *x = chosen(*x, q, p, *x);
    }
    r
}

// Made once for many questions: a question then is a look-up. Bridge after bridge joins two components: the ways from each
// to the other are new, and each begins as the way to the bridge does, so no way is followed. (256 bytes, and no map: memory is
// fixed. 255 stands where no bridge is crossed: an Option for each would double them.)
pub fn hops(t: Table) -> [u8; 256]
    requires { table_passes t ≡ true }
    ensures { result ≡ hops_of t }
{
    let mut labels: [u8; 16] = [0, 1, 2, 3, 4, 5, 6, 7, 8, 9, 10, 11, 12, 13, 14, 15];
    let mut h = [255; 256];
    for k in 0..t.bridges as usize {
        let p = t.pairs[k];
        let forth = bridge_channel(t, k, true);
        let back = bridge_channel(t, k, false);
        cross(&mut h, labels, p.first, p.second, forth);
        cross(&mut h, labels, p.second, p.first, back);
        labels = merged(
            labels,
            labels[p.first.0 as usize],
            labels[p.second.0 as usize],
        );
    }
    h
}

// The channel that leads from one bus towards another.
pub fn towards(hops: &[u8; 256], a: Bus, b: Bus) -> Chan
    requires { (a.0 < 16) × (b.0 < 16) }
    ensures { result ≡ chan (get_or hops.now (16 * a.0 + b.0) 0) }
{
    Chan(hops[16 * (a.0 as usize) + b.0 as usize])
}
