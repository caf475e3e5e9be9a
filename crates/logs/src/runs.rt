// A block of single steps, or a tick, played, and its lines written into a lent buffer.
ghost use Rattle.std.specs.Prelude.{◌≡◌, true, ◌+◌, ◌*◌, ◌≤◌, length};
ghost use Rattle.chassis.specs.Capacities.{most_records};
ghost use Rattle.network.specs.Soundness.{sound};
ghost use Rattle.ticks.specs.Ticks.{tick_number, tick_record, tick_other};
ghost use Rattle.blocks.specs.Answers.{block_answer};
ghost use Rattle.blocks.specs.Blocks.{record_count, block_records};
ghost use Rattle.lines.specs.Lines.{texts};
ghost use Rattle.logs.specs.Logs.{steps, tick_lines, tick_of, entries_left};
ghost use Rattle.logs.specs.code.Plays.{step_texts};
ghost use Rattle.logs.specs.code.Runs.{run_lines, run_state, goes_on};
ghost use Rattle.lines.specs.code.Writing.{Written};

use base::Refusal;
use blocks::BlockKind;
use blocks::checks::{block_answer, record_bytes, table_of};
use chassis::MOST_RECORDS;
use lent_plays::in_turn::play;
use lent_states::left::entries_left_in;
use lent_ticks::at_once::play_tick;
use lines::lines::{put_e, put_net, put_stop, put_t};
use network::{State, empty};
use ticks::TickRefusal;

// One `e` line for each of the n records of `r`.
fn put_steps(
    out: &mut [u8],
    at: usize,
    block: u32,
    r: &[u8],
    refusals: &[u8],
    values: &[u16],
    n: usize,
) -> usize
    requires { (at + 40 * n ≤ length out.old) × (n ≤ most_records) × (8 * n ≤ length r.now) × (n ≤ length refusals.now) × (n ≤ length values.now) }
    ensures written { Written out.old at (step_texts block r.now refusals.now values.now n 0) out.new result }
    ensures upper_bound { result ≤ at + 40 * n }
{
    let mut end = at;
    for i in 0..n {
        let from = 8 * i;
        end = put_e(out, end, block, i as u32, r[from], refusals[i], values[i]);
    }
    end
}

// The state behind a block, and the end of what it printed.
#[derive(Clone, Copy)]
pub struct BlockRan {
    pub state: State,
    pub end: usize,
}

// A block of single steps: its records played, its `e` lines written from `at` on. (play_steps_in does it on a lent state, and asks that
// the place has two bytes; this promises it of any place.)
pub fn play_steps(s: State, place: u32, b: &[u8], out: &mut [u8], at: usize) -> BlockRan
    requires { (sound s ≡ true) × (length b.now ≡ 512) × (record_count b.now ≤ most_records) × (at + 2520 ≤ length out.old) }
    ensures state_value { result.state ≡ (steps place 0 s (block_records b.now)).state }
    ensures written { Written out.old at (texts (steps place 0 s (block_records b.now)).lines) out.new result.end }
    ensures end_bound { result.end ≤ at + 2560 }
{
    let n = b[1] as usize;
    let r = record_bytes(b);
    let mut refusals: [u8; MOST_RECORDS] = [0; MOST_RECORDS];
    let mut values: [u16; MOST_RECORDS] = [0; MOST_RECORDS];
    let state = play(s, r, &mut refusals, &mut values);
    let end = put_steps(out, at, place, r, &refusals, &values, n);
    BlockRan { state, end }
}

// Document 01's number, record and other record of a tick's answer.
pub fn tick_number(a: Result<(), TickRefusal>) -> u8
    ensures { result ≡ tick_number a }
{
    match a {
        Ok(()) => 0,
        Err(TickRefusal::Refused { ground, .. }) => u8::from(ground),
        Err(TickRefusal::Conflict { .. }) => u8::from(Refusal::InConflict),
    }
}

pub fn tick_record(a: Result<(), TickRefusal>) -> u8
    ensures { result ≡ tick_record a }
{
    match a {
        Ok(()) => 0,
        Err(TickRefusal::Refused { record, .. }) => record,
        Err(TickRefusal::Conflict { record, .. }) => record,
    }
}

pub fn tick_other(a: Result<(), TickRefusal>) -> u8
    ensures { result ≡ tick_other a }
{
    match a {
        Err(TickRefusal::Conflict { other, .. }) => other,
        _ => 0,
    }
}

// A tick block: its `t` line and, where the tick is accepted, an `e` line for each record.
pub fn play_cycle(s: State, place: u32, b: &[u8], out: &mut [u8], at: usize) -> BlockRan
    requires { (sound s ≡ true) × (length b.now ≡ 512) × (record_count b.now ≤ most_records) × (at + 2560 ≤ length out.old) }
    ensures state_value { result.state ≡ (tick_of s b.now).state }
    ensures written { Written out.old at (texts (tick_lines place (block_records b.now) (tick_of s b.now))) out.new result.end }
    ensures end_bound { result.end ≤ at + 2560 }
{
    let n = b[1] as usize;
    let r = record_bytes(b);
    let none: [u8; MOST_RECORDS] = [0; MOST_RECORDS];
    let mut values: [u16; MOST_RECORDS] = [0; MOST_RECORDS];
    let q = play_tick(s, r, &mut values);
    let a = q.answer;
    let mut end = put_t(
        out,
        at,
        place,
        tick_number(a),
        tick_record(a),
        tick_other(a),
    );
    if a.is_ok() {
        end = put_steps(out, end, place, r, &none, &values, n);
    }
    BlockRan {
        state: q.state,
        end,
    }
}

// One block of an input: read on, or not; the state behind it; the end of what it printed. No Option: state and end are there
// whether or not the input goes on.
#[derive(Clone, Copy)]
pub struct BlockRun {
    pub going: bool,
    pub state: State,
    pub end: usize,
}

#[tactic(auto, unfolding(lines::specs::Lines::texts))]
pub fn run_block(s: State, place: u32, b: &[u8], out: &mut [u8]) -> BlockRun
    requires { (2560 ≤ length out.old) × ((place ≡ 0 → ⊥) → sound s ≡ true) }
    ensures going_value { result.going ≡ goes_on (block_answer place b.now) }
    ensures state_value { result.state ≡ run_state place s b.now (block_answer place b.now) }
    ensures written { Written out.old 0 (texts (run_lines place s b.now (block_answer place b.now))) out.new result.end }
    ensures end_bound { result.end ≤ 2560 }
{
    let (state, end) = match block_answer(place, b) {
        Err(ground) => {
            let end = put_stop(out, 0, place, u8::from(ground));
            return BlockRun {
                going: false,
                state: s,
                end,
            };
        }
        Ok(BlockKind::Network) => {
            let t = table_of(b);
            (empty(t), put_net(out, 0, t.buses, t.bridges, t.agents))
        }
        Ok(BlockKind::Steps) => {
            let r = play_steps(s, place, b, out, 0);
            (r.state, r.end)
        }
        Ok(BlockKind::Tick) => {
            let r = play_cycle(s, place, b, out, 0);
            (r.state, r.end)
        }
    };
    BlockRun {
        going: true,
        state,
        end,
    }
}

// The entries left in all channels.
#[tactic(auto, using(crate::proofs::Running::held_is_left))]
pub fn entries_left(s: State) -> u32
    requires { sound s ≡ true }
    ensures { result ≡ entries_left s.channels }
{
    entries_left_in(&s)
}
