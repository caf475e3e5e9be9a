// Component labels, level by level: what the first k bridges join, for every k at once. (256 bytes, and no map: memory is fixed. Three
// functions ask a table with its ladder, where it is made: a struct for both would be no plainer.)

ghost use Rattle.std.specs.Prelude.{◌≡◌, ℕ, ◌<◌, get_or};
ghost use Rattle.chassis.specs.Routes.{relabel};
ghost use Rattle.check_tables.specs.Ladders.{InRange, places, label_at, ladder_of, share_label};

use chassis::{Bus, Table};

fn relabelled(p: Bus, q: Bus, c: Bus) -> Bus
    ensures { result ≡ relabel p q c }
{
    if c == q { p } else { c }
}

// Level k + 1 is made of level k: bridge k joins two components.
#[tactic(auto, using(crate::proofs::Levels::few_places, crate::proofs::Levels::bridge_below, crate::proofs::Levels::first_before, crate::proofs::Levels::second_before))]
fn label(t: Table, l: &[u8; 256], i: usize) -> u8
    requires { InRange t × (i < places t) × ((j : ℕ) → j < i → get_or l.now j 0 ≡ label_at t j) }
    ensures { result ≡ label_at t i }
{
    if i < 16 {
        return i as u8;
    }
    let below = i - 16;
    let k = below / 16;
    let g = t.pairs[k];
    let x = 16 * k + g.first.0 as usize;
    let y = 16 * k + g.second.0 as usize;
    let r = relabelled(Bus(l[x]), Bus(l[y]), Bus(l[below]));
    r.0
}

#[tactic(auto, using(crate::proofs::Levels::few_places))]
pub fn ladder(t: Table) -> [u8; 256]
    requires { InRange t }
    ensures { result ≡ ladder_of t }
{
    let mut l = [0; 256];
    let n = 16 * (t.bridges as usize + 1);
    for i in 0..n {
        let v = label(t, &l, i);
        l[i] = v;
    }
    l
}

pub fn share_label(l: &[u8; 256], k: usize, a: Bus, b: Bus) -> bool
    requires { (k < 16) × (a.0 < 16) × (b.0 < 16) }
    ensures { result ≡ share_label l.now k a b }
{
    let i = 16 * k + a.0 as usize;
    let j = 16 * k + b.0 as usize;
    l[i] == l[j]
}
