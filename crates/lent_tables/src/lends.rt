// Records that a caller holds in arrays are lent. There is one place more than a table has, so that a list that is too long can be lent too.
// (Arrays with counts, and no slices: whoever has slices calls lists.rt. The two functions are a line each, and answer different things.)

ghost use Rattle.std.specs.Prelude.{◌≡◌, take, Option, Result};
ghost use Rattle.lent_tables.specs.Lists.{lent_answer, joined_of};

use crate::Numbers;
use crate::lists::{between, check};
use base::Refusal;
use chassis::{Bridge, Bus};

// The check of a table whose lists are the first n bridges and the first k homes of two arrays.
#[tactic(auto, using(crate::proofs::Adding::take_most))]
pub fn check_arrays(
    m: Numbers,
    gs: [Bridge; 16],
    hs: [Bus; 33],
    n: usize,
    k: usize,
) -> Result<(), Refusal>
    ensures { result ≡ lent_answer m (take n gs) (take k hs) }
{
    check(m, &gs[..n.min(16)], &hs[..k.min(33)])
}

// The lowest of the first n bridges of an array between two buses.
#[tactic(auto, using(crate::proofs::Adding::take_most))]
pub fn between_arrays(gs: [Bridge; 16], n: usize, a: Bus, b: Bus) -> Result<Option<u8>, Refusal>
    ensures { result ≡ joined_of (take n gs) a b }
{
    between(&gs[..n.min(16)], a, b)
}
