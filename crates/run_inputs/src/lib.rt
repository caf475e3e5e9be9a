// A whole input to its log, over lent bytes.

#![tactic(auto)]

ghost use Rattle.std.specs.Prelude.{◌≡◌, true, ◌-◌, ◌≤◌, ◌<◌, length, take, drop};
ghost use Rattle.std.proofs.lemmas.List.Edits.{sets};
ghost use Rattle.network.specs.Soundness.{sound};
ghost use Rattle.lines.specs.Lines.{texts};
ghost use Rattle.lines.specs.code.Writing.{Written};
ghost use Rattle.logs.specs.Logs.{log};
ghost use Rattle.run_inputs.specs.Printed.{printed_into};
ghost use Rattle.run_inputs.specs.Inputs.{is_end, next_goes_on, next_state, next_lines};

use lines::lines::put_end;
use logs::runs::{BlockRun, entries_left, run_block};
use network::{State, zero};

#[tactic(auto, unfolding(crate::specs::Inputs::is_end))]
fn is_end(place: u32, b: &[u8]) -> bool
    ensures { result ≡ is_end place b.now }
{
    place != 0 && b.is_empty()
}

// The next bytes of an input: a block to be played, or, behind at least one block, none: the end. The place that a block
// states has two bytes, so block 65,536 is refused whatever it holds.
#[tactic(auto, unfolding(lines::specs::Lines::texts))]
pub fn play_next(s: State, place: u32, b: &[u8], out: &mut [u8]) -> BlockRun
    requires { (2560 ≤ length out.old) × ((place ≡ 0 → ⊥) → sound s ≡ true) }
    ensures going_value { result.going ≡ next_goes_on place b.now }
    ensures state_value { result.state ≡ next_state place s b.now }
    ensures written { Written out.old 0 (texts (next_lines place s b.now)) out.new result.end }
    ensures end_bound { result.end ≤ 2560 }
    ensures place_bound { result.going ≡ true → place < 65536 }
{
    if is_end(place, b) {
        let end = put_end(out, 0, entries_left(s));
        return BlockRun {
            going: false,
            state: s,
            end,
        };
    }
    run_block(s, place, b, out)
}

// Where the next bytes of an input end: 512 further on, or at its end.
#[tactic(auto, using(crate::proofs::Printing::part_end, crate::proofs::Printing::rest_end))]
fn block_end(input: &[u8], at: usize) -> usize
    requires { at ≤ length input.now }
    ensures lower_bound { (at ≤ result) × (result ≤ length input.now) }
    ensures input_value { take (result - at) (drop at input.now) ≡ take 512 (drop at input.now) }
    ensures input_value_2 { drop result input.now ≡ drop 512 (drop at input.now) }
{
    (at + 512).min(input.len())
}

// As much of `text` as the buffer holds from `at` on.
#[tactic(auto, using(crate::proofs::Printing::sets_out, crate::proofs::Printing::part_put))]
fn put_part(out: &mut [u8], at: usize, text: &[u8])
    ensures { out.new ≡ sets out.old at text.now }
{
    if out.len() <= at {
        return;
    }
    let n = (out.len() - at).min(text.len());
    out[at..at + n].copy_from_slice(&text[..n]);
}

// The log of an input, into a buffer of any length: as much of it as the buffer holds, and what is behind the log stays. The
// answer is the length of the whole log, so a caller sees what was cut off. The loop has no bound of its own: it ends where
// the definition ends.
pub fn run(input: &[u8], out: &mut [u8]) -> usize
    ensures value { result ≡ length (log input.now) }
    ensures out_after { out.new ≡ printed_into out.old (log input.now) }
{
    let mut text: [u8; 2560] = [0; 2560];
    let mut state = zero();
    let mut place: u32 = 0;
    let mut at = 0;
    let mut end = 0;
    loop {
        let e = block_end(input, at);
        let r = play_next(state, place, &input[at..e], &mut text);
        put_part(out, end, &text[..r.end]);
        end += r.end;
        if !r.going {
            return end;
        }
        state = r.state;
        place += 1;
        at = e;
    }
}
