// Reads blocks from standard input and prints the log. What cannot be read or written is told on standard error: the script
// `pcibus` makes a status of that.

#![tactic(auto)]

use play_inputs::{Log, play_input};
use std::io;
use std::io::{Empty, Stdout};

fn main(rt: HostRuntime) -> io::Result<()> {
    let mut log: Log<Stdout, Empty> = Log::Written(rt.stdout());
    match play_input(&mut rt.stdin(), &mut log) {
        Ok(()) => Ok(()),
        // The input cannot be read or the log not written: no other error comes of a log that is written.
        Err(e) => eprintln!(rt; "pcibus: {e}"),
    }
}
