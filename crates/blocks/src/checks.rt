// A block's bytes: its check, its grounds in order, and the table and the records that it holds. (They stay a slice, and its length and its
// count of records clauses: an array or a struct would ask more of whoever holds bytes, and run_block, which asks nothing, has both of
// block_answer.)
ghost use Rattle.std.specs.Prelude.{◌≡◌, ◌+◌, ◌≤◌, map, length, Result};
ghost use Rattle.std.proofs.Math.Seq.{slice};
ghost use Rattle.chassis.specs.Numbers.{bus};
ghost use Rattle.chassis.specs.Capacities.{most_records};
ghost use Rattle.blocks.specs.Blocks.{two_bytes, four_bytes, weighed, check_is_right, all_zero, bridge_records, table_of, kind_place_count_are_right, stray_in_table, stray_behind_records, record_count, record_bytes};
ghost use Rattle.blocks.specs.Answers.{accepted_as, content_answer, block_answer};

use crate::BlockKind;
use base::Refusal;
use chassis::{Bridge, Bus, MOST_AGENTS, MOST_RECORDS_U8, Table};
use check_tables::tables::table_answer;

// "Low byte first."
fn two_bytes(b: &[u8], i: usize) -> u16
    requires { i + 2 ≤ length b.now }
    ensures { result ≡ two_bytes b.now i }
{
    u16::from_le_bytes([b[i], b[i + 1]])
}

fn four_bytes(b: &[u8], i: usize) -> u32
    requires { i + 4 ≤ length b.now }
    ensures { result ≡ four_bytes b.now i }
{
    u32::from_le_bytes([b[i], b[i + 1], b[i + 2], b[i + 3]])
}

// The weight runs beside the bytes, so that no index is cast.
fn weigh(b: &[u8]) -> u32
    requires { length b.now ≤ 508 }
    ensures { result ≡ weighed 1 b.now }
{
    let mut sum: u32 = 0;
    let mut weight: u32 = 1;
    for x in b {
        sum += weight * u32::from(*x);
        weight += 1;
    }
    sum
}

// Ground 21: "the sum over places i from 0 to 507 of (i + 1) times byte i".
#[tactic(auto, unfolding(crate::specs::Blocks::check_is_right))]
pub fn check_is_right(b: &[u8]) -> bool
    requires { length b.now ≡ 512 }
    ensures { result ≡ check_is_right b.now }
{
    weigh(&b[..508]) == four_bytes(b, 508)
}

// No branch at a byte, so that the compiler takes many at once.
fn are_zero(c: &[u8]) -> bool
    ensures { result ≡ all_zero c.now }
{
    c.iter().fold(true, |z, x| z & (*x == 0))
}

// Sixty-four bytes at a time, up to the first piece that is not zero.
fn all_zero(b: &[u8], from: usize, to: usize) -> bool
    requires { to ≤ length b.now }
    ensures { result ≡ all_zero (slice from to b.now) }
{
    to <= from || b[from..to].chunks(64).all(|c| are_zero(c))
}

// "All else is 0."
#[tactic(auto, unfolding(crate::specs::Blocks::stray_in_table))]
pub fn stray_in_table(b: &[u8]) -> bool
    requires { length b.now ≡ 512 }
    ensures { result ≡ stray_in_table b.now }
{
    !(all_zero(b, 10, 16) && all_zero(b, 46, 48) && all_zero(b, 80, 508))
}

// "24 looks only behind the last record."
#[tactic(auto, unfolding(crate::specs::Blocks::stray_behind_records))]
pub fn stray_behind_records(b: &[u8]) -> bool
    requires { length b.now ≡ 512 }
    ensures { result ≡ stray_behind_records b.now }
{
    let count = b[1] as usize;
    !all_zero(b, 4 + 8 * count, 508)
}

fn bridges_of(b: &[u8]) -> [Bridge; 15]
    requires { length b.now ≡ 512 }
    ensures { result ≡ bridge_records (slice 16 46 b.now) }
{
    let mut pairs = [Bridge {
        first: Bus(0),
        second: Bus(0),
    }; 15];
    for i in 0..15 {
        let at = 16 + 2 * i;
        pairs[i] = Bridge {
            first: Bus(b[at]),
            second: Bus(b[at + 1]),
        };
    }
    pairs
}

// (A loop like the one above: one function for both would be handed what two bytes make or one, and be longer than either.)
fn homes_of(b: &[u8]) -> [Bus; MOST_AGENTS]
    requires { length b.now ≡ 512 }
    ensures { result ≡ map bus (slice 48 80 b.now) }
{
    let mut homes = [Bus(0); MOST_AGENTS];
    for i in 0..MOST_AGENTS {
        homes[i] = Bus(b[48 + i]);
    }
    homes
}

// The table that the block's bytes hold, whether or not it passes its grounds.
#[tactic(auto, unfolding(crate::specs::Blocks::table_of))]
pub fn table_of(b: &[u8]) -> Table
    requires { length b.now ≡ 512 }
    ensures { result ≡ table_of b.now }
{
    let pairs = bridges_of(b);
    let homes = homes_of(b);
    Table {
        buses: b[4],
        bridges: b[5],
        agents: b[6],
        limits: [b[7], b[8], b[9]],
        pairs,
        homes,
    }
}

// "The records of a block begin at its byte 4."
#[tactic(auto, unfolding(crate::specs::Blocks::record_bytes))]
pub fn record_bytes(b: &[u8]) -> &[u8]
    requires { (length b.now ≡ 512) × (record_count b.now ≤ most_records) }
    ensures { result.now ≡ record_bytes b.now }
{
    let count = b[1] as usize;
    let e = 4 + 8 * count;
    &b[4..e]
}

// Ground 22. Count 0 for a table, else 0 to 63; kind 1 at place 0 and only there.
#[tactic(auto, unfolding(crate::specs::Blocks::kind_place_count_are_right))]
fn kind_place_count_are_right(place: u32, b: &[u8]) -> bool
    requires { length b.now ≡ 512 }
    ensures { result ≡ kind_place_count_are_right place b.now }
{
    if u32::from(two_bytes(b, 2)) != place {
        return false;
    }
    match b[0] {
        1 => place == 0 && b[1] == 0,
        2 | 3 => place != 0 && b[1] <= MOST_RECORDS_U8,
        _ => false,
    }
}

fn accepted_as(b: &[u8]) -> BlockKind
    requires { length b.now ≡ 512 }
    ensures { result ≡ accepted_as b.now }
{
    match b[0] {
        1 => BlockKind::Network,
        2 => BlockKind::Steps,
        _ => BlockKind::Tick,
    }
}

// "For tables 23 .. 27"; "Event blocks after 22: 24 only."
#[tactic(auto, unfolding(crate::specs::Answers::content_answer, crate::specs::Blocks::content_grounds, chassis::specs::Answers::table_answer))]
fn content_answer(b: &[u8]) -> Result<BlockKind, Refusal>
    requires { length b.now ≡ 512 }
    ensures { result ≡ content_answer b.now }
{
    if b[0] == 1 {
        return table_answer(table_of(b), stray_in_table(b)).map(|_| BlockKind::Network);
    }
    if stray_behind_records(b) {
        return Err(Refusal::UnusedByte);
    }
    Ok(accepted_as(b))
}

// "Block refusals in order."
#[tactic(auto, unfolding(crate::specs::Answers::block_answer, crate::specs::Answers::content_answer, crate::specs::Blocks::block_grounds))]
pub fn block_answer(place: u32, b: &[u8]) -> Result<BlockKind, Refusal>
    ensures { result ≡ block_answer place b.now }
{
    if b.len() != 512 {
        return Err(Refusal::NotABlock);
    }
    if !check_is_right(b) {
        return Err(Refusal::WrongCheck);
    }
    if !kind_place_count_are_right(place, b) {
        return Err(Refusal::WrongHead);
    }
    content_answer(b)
}
