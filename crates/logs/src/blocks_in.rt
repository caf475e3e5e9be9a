// A block of single steps played on a lent state: each record is read into its step record, judged, settled where the state lies, and printed.
ghost use Rattle.std.specs.Prelude.{◌≡◌, true, ◌+◌, ◌*◌, ◌<◌, ◌≤◌, length, take, drop};
ghost use Rattle.chassis.specs.Capacities.{most_records};
ghost use Rattle.network.specs.Soundness.{sound};
ghost use Rattle.events.specs.Reads.{read_at};
ghost use Rattle.blocks.specs.Blocks.{record_count, record_bytes, block_records};
ghost use Rattle.lines.specs.Lines.{text, texts};
ghost use Rattle.lines.specs.code.Writing.{Written};
ghost use Rattle.logs.specs.Logs.{steps};
ghost use Rattle.logs.specs.code.Plays.{read_line};

use blocks::checks::record_bytes;
use events::answers::{answer_value, refusal_number};
use events::reads::{block_of, decode_at, decoded_of, kind_byte, place_of};
use events::{Step, Unfit};
use find_routes::ways::Ways;
use lent_plays::shapes::shape_in;
use lent_plays::stepping::play_in;
use lines::lines::put_e;
use network::State;

// The `e` line of a record, by what was read of it. (The refusal is a number here, as the line shows it: 0 for none.)
pub fn put_read(out: &mut [u8], at: usize, x: Result<Step, Unfit>, refusal: u8, value: u16) -> usize
    requires { at + 40 ≤ length out.old }
    ensures { Written out.old at (text (read_line x refusal value)) out.new result × (result ≤ at + 40) }
{
    let block = u32::from(block_of(x));
    let place = u32::from(place_of(x));
    put_e(out, at, block, place, kind_byte(x), refusal, value)
}

fn count_of(b: &[u8]) -> usize
    requires { length b.now ≡ 512 }
    ensures { result ≡ record_count b.now }
{
    b[1] as usize
}

// Record i of a block.
fn read_in(b: &[u8], place: u32, i: usize) -> Result<Step, Unfit>
    requires { (length b.now ≡ 512) × (record_count b.now ≤ most_records) × (i < record_count b.now) × (place < 65536) }
    ensures { result ≡ read_at place i (take 8 (drop (8 * i) (record_bytes b.now))) }
{
    let r = record_bytes(b);
    decode_at(r, place as u16, i)
}

// The records of a block, one by one, and their `e` lines from `at` on. An accepted block states its own place in two bytes.
pub fn play_steps_in(
    s: &mut State,
    ways: &Ways,
    b: &[u8],
    out: &mut [u8],
    place: u32,
    at: usize,
) -> usize
    requires { (sound s.old ≡ true) × (ways.now.table ≡ s.old.table) × (length b.now ≡ 512) × (record_count b.now ≤ most_records) × (at + 2520 ≤ length out.old) × (place < 65536) }
    ensures { (s.new ≡ (steps place 0 s.old (block_records b.now)).state) × Written out.old at (texts (steps place 0 s.old (block_records b.now)).lines) out.new result × (result ≤ at + 2560) }
{
    shape_in(s);
    let mut end = at;
    for i in 0..count_of(b) {
        let x = read_in(b, place, i);
        let answer = play_in(s, ways, decoded_of(x));
        end = put_read(out, end, x, refusal_number(answer), answer_value(answer));
    }
    end
}
