// Runs over lent bytes: into a buffer with room to spare, one that is too short and an empty one, then of an input without any
// block. Each line: what is tried, the length of the whole log and how much of it did not fit; then the buffer, whose places
// held `.` before.

#![tactic(auto)]

ghost use Rattle.std.specs.Prelude.{◌≤◌, length, IfOk};

use run_inputs::run;
use std::io;
use std::io::{ErrorKind, Read};

fn show(rt: &impl Print, name: &str, input: &[u8], out: &mut [u8]) -> io::Result<()> {
    let length = run(input, out);
    let short = length.saturating_sub(out.len());
    println!(rt; "{name}{length} {short}")?;
    rt.write_all(out)?;
    rt.println("")
}

// Reads until the buffer is full or the input is at its end; says how many bytes that were. (play_inputs reads so too, and keeps it to
// itself.)
fn read_full(from: &mut impl Read, buffer: &mut [u8]) -> io::Result<usize>
    ensures { IfOk result (λ n. n ≤ length buffer.old) }
{
    let mut done: usize = 0;
    for _ in 0..u64::MAX {
        match from.read(&mut buffer[done..]) {
            Ok(0) => return Ok(done),
            Ok(n) => done += n,
            Err(e) if e.kind() == ErrorKind::Interrupted => {}
            Err(e) => return Err(e),
        }
    }
    Ok(done)
}

fn main(rt: HostRuntime) -> io::Result<()> {
    let mut input: [u8; 2048] = [0; 2048];
    let got = read_full(&mut rt.stdin(), &mut input)?;
    let mut long: [u8; 128] = [46; 128];
    show(&rt, "enough ", &input[..got], &mut long)?;
    let mut short: [u8; 16] = [46; 16];
    show(&rt, "too short ", &input[..got], &mut short)?;
    let mut none: [u8; 0] = [0; 0];
    show(&rt, "empty ", &input[..got], &mut none)?;
    let mut few: [u8; 16] = [46; 16];
    show(&rt, "no input ", &input[..0], &mut few)
}
