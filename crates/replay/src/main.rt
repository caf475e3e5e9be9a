// Plays stored streams and compares each log with the stored one. Its arguments name the streams: NAME.in and NAME.out.

#![tactic(auto)]

use play_inputs::{Log, play_input};
use std::fs::File;
use std::io::Sink;
use std::rt::Files;
use std::{env, io};

// A name may have so many bytes; a longer one counts as none, which has no file, as an empty line has none.
const MOST_NAME: usize = 256;

// Behind a name that may be opened there is room for its ending.
const MOST_OPENED: usize = 252;

fn within_bounds(name: &str) -> &str {
    if name.len() > MOST_NAME { "" } else { name }
}

// Opens the file that a name and an ending name.
fn open_named<R: Files + Alloc>(rt: &R, name: &str, ending: &str) -> io::Result<R::File> {
    let path = format!(in rt.alloc(); "{name}.{ending}")?;
    File::open(rt, path)
}

// Plays a stream and compares its log. One without files differs, and so does one that cannot be read to its end.
fn is_same<R: Files + Alloc>(rt: &R, name: &str) -> bool {
    if name.len() > MOST_OPENED {
        return false;
    }
    let Ok(mut input) = open_named(rt, name, "in") else {
        return false;
    };
    let Ok(stored) = open_named(rt, name, "out") else {
        return false;
    };
    let mut log: Log<Sink, R::File> = Log::Compared(stored);
    play_input(&mut input, &mut log).is_ok()
}

// A stream with its line; whether it differs.
fn differs<R: Files + Alloc + Print>(rt: &R, name: &str) -> io::Result<bool> {
    let same = is_same(rt, name);
    let word = if same { "same" } else { "differs" };
    println!(rt; "{name} {word}")?;
    Ok(!same)
}

// The last line.
fn print_sum(rt: &impl Print, streams: u64, differ: u64) -> io::Result<()> {
    println!(rt; "{streams} streams, {differ} differ")
}

fn main(rt: HostRuntime) -> io::Result<()> {
    let mut names = env::args(&rt)?;
    // The first argument is the program's own name.
    let _ = names.next();
    let streams = names.len() as u64;
    let mut differ: u64 = 0;
    for name in names {
        if differs(&rt, within_bounds(name.as_str()))? {
            differ += 1;
        }
    }
    print_sum(&rt, streams, differ)
}
