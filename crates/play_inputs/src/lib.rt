// An input played from a reader: its blocks are read in turn, their log is written or compared. Both programs play their
// inputs by `play_input`.
//
// What is proved of it: it is safe and ends; each turn hands the bytes that it read, as many as the read says there are, to
// `play_next`, with the state that the last turn left, so all that the definition says of a block holds of it; an input is
// called done only behind bytes that end it (`ending`); the bound of the loop is never what ends it (`Cut` never comes), since
// block 65,536 is refused; and a log that is written is never called different, nor one that is compared unwritten.
// And where the reader says which bytes it has left and the writer which it holds, as one over memory does: an input that is
// done has its whole log written, byte for byte, or the log that was compared is that one to its end; one that is not has
// nothing but its log's beginning written.
// What is not: that the bytes are those of a file and that the log arrives there. No contract can speak of what a descriptor
// brings or takes; what comes of it is compared (crates/pcibus/stdout, crates/replay/data).

#![tactic(auto)]

ghost use Rattle.std.specs.Prelude.{◌≡◌, true, false, cond, ◌≤◌, [], length, IfSome, IfErr, OnOk};
ghost use Rattle.run_inputs.specs.Inputs.{next_goes_on};
ghost use Rattle.play_inputs.specs.Endings.{can_end};
ghost use Rattle.play_inputs.specs.Known.{PartRead, BlockRead, PartWritten, TextWritten, is_compared, HandedOn, EndedAs, EndedWithLog};
ghost use Rattle.play_inputs.specs.declared.PlayError.TheVariants.{Differs, WriteFailed};
ghost use Rattle.std.specs.Io.KnownBytes.{Consumes};

use network::zero;
use run_inputs::play_next;
use std::error::Error;
use std::fmt;
use std::io::{ErrorKind, Read, Write};

// Why an input is not done: its log differs from the stored one; it cannot be read; the log cannot be written; or the loop's
// bound cut it, which never comes.
#[derive(Clone, Copy, Debug, PartialEq, Eq)]
pub enum PlayError {
    Differs,
    ReadFailed,
    WriteFailed,
    Cut,
}

impl fmt::Display for PlayError {
    fn fmt<W: fmt::Write>(&self, f: &mut fmt::Formatter<W>) -> fmt::Result {
        match self {
            PlayError::Differs => write!(f, "the log differs"),
            PlayError::ReadFailed => write!(f, "the input cannot be read"),
            PlayError::WriteFailed => write!(f, "the log cannot be written"),
            PlayError::Cut => write!(f, "the input is cut"),
        }
    }
}

impl Error for PlayError {}

// What becomes of a log: it is written, or compared with a stored one.
#[derive(Drop)]
pub enum Log<W, S> {
    Written(W),
    Compared(S),
}

// So many calls in a row that a signal interrupted have failed.
const TRIES: u32 = 1000;

// One read: so many bytes, fewer than there was room for only at the end of the input; none where it failed. A call that a
// signal interrupted is made again; a thousand interrupted calls in a row have failed.
fn read_part<R: Read>(from: &mut R, part: &mut [u8]) -> Option<usize>
    ensures within { IfSome result (λ n. n ≤ length part.old) }
    ensures known { PartRead (R.remaining from.old) (R.remaining from.new) result part.new }
{
    for _ in 0..TRIES {
        match from.read(part) {
            Ok(n) => return Some(n),
            Err(e) if e.kind() == ErrorKind::Interrupted => {}
            Err(_) => return None,
        }
    }
    None
}

// Reads until `block` is full or the input is at its end. A `while`, since a turn goes on by what its read brought.
fn read_block<R: Read>(from: &mut R, block: &mut [u8]) -> Option<usize>
    ensures within { IfSome result (λ n. n ≤ length block.old) }
    ensures known { BlockRead (R.remaining from.old) (R.remaining from.new) result block.new }
{
    let mut done: usize = 0;
    while done < block.len() {
        let n = read_part(from, &mut block[done..])?;
        if n == 0 {
            return Some(done);
        }
        done += n;
    }
    Some(done)
}

// One write: so many bytes, or none where it failed. Interrupted calls are as in `read_part`: one loop for both would be handed
// either call as a closure, and its contract would have to say what the closure's calls do, which is no plainer.
fn write_part<W: Write>(to: &mut W, part: &[u8]) -> Option<usize>
    ensures within { IfSome result (λ n. n ≤ length part.now) }
    ensures known { PartWritten (W.contents to.old) (W.contents to.new) result part.now }
{
    for _ in 0..TRIES {
        match to.write(part) {
            Ok(n) => return Some(n),
            Err(e) if e.kind() == ErrorKind::Interrupted => {}
            Err(_) => return None,
        }
    }
    None
}

// Writes all of `text`, or as much as can be written. A `while`, since a turn goes on by what its write took.
fn write_text<W: Write>(to: &mut W, text: &[u8]) -> Result<(), PlayError>
    ensures ending { IfErr result (λ e. e ≡ WriteFailed) }
    ensures known { TextWritten (W.contents to.old) (W.contents to.new) result text.now }
{
    let mut done: usize = 0;
    while done < text.len() {
        match write_part(to, &text[done..]) {
            None | Some(0) => return Err(PlayError::WriteFailed),
            Some(n) => done += n,
        }
    }
    Ok(())
}

// Compares `text` with as many bytes of the stored log.
fn compare_text<S: Read>(stored: &mut S, text: &[u8]) -> Result<(), PlayError>
    requires { length text.now ≤ 2560 }
    ensures ending { IfErr result (λ e. e ≡ Differs) }
    ensures known { OnOk result (Consumes (S.remaining stored.old) (S.remaining stored.new) text.now) }
{
    let mut there: [u8; 2560] = [0; 2560];
    let part = &mut there[..text.len()];
    match read_block(stored, part) {
        Some(n) if &part[..n] == text => Ok(()),
        _ => Err(PlayError::Differs),
    }
}

// A part of the log: written, or compared with as many bytes of the stored one.
fn hand_on<W: Write, S: Read>(log: &mut Log<W, S>, text: &[u8]) -> Result<(), PlayError>
    requires { length text.now ≤ 2560 }
    ensures kept { is_compared log.new ≡ is_compared log.old }
    ensures ending { can_end (is_compared log.old) result ≡ true }
    ensures fault { IfErr result (λ e. e ≡ cond (is_compared log.old) Differs WriteFailed) }
    ensures known { HandedOn W.contents S.remaining result log.old log.new text.now }
{
    match log {
        Log::Written(to) => write_text(to, text),
        Log::Compared(stored) => compare_text(stored, text),
    }
}

// The input is played: a log that is compared must be at its end too. Only here is an input called done, and whoever calls
// this must have the bytes behind which it ends; `place` and `last` are there for that alone.
fn ending<W: Write, S: Read>(log: &mut Log<W, S>, place: u32, last: &[u8]) -> Result<(), PlayError>
    requires { next_goes_on place last.now ≡ false }
    ensures ending { can_end (is_compared log.old) result ≡ true }
    ensures known { EndedAs W.contents S.remaining result log.old log.new [] }
{
    let Log::Compared(stored) = log else {
        return Ok(());
    };
    let mut one: [u8; 1] = [0; 1];
    match read_block(stored, &mut one) {
        Some(0) => Ok(()),
        _ => Err(PlayError::Differs),
    }
}

// Plays the blocks read from `input`. Their log is written, or compared with all that can be read of the stored one.
pub fn play_input<R: Read, W: Write, S: Read>(
    input: &mut R,
    log: &mut Log<W, S>,
) -> Result<(), PlayError>
    ensures ending { can_end (is_compared log.old) result ≡ true }
    ensures known { IfSome (R.remaining input.old) (EndedWithLog W.contents S.remaining result log.old log.new) }
{
    let mut block: [u8; 512] = [0; 512];
    let mut out: [u8; 2560] = [0; 2560];
    let mut state = zero();
    for place in 0..65537 {
        let n = read_block(input, &mut block).ok_or(PlayError::ReadFailed)?;
        let r = play_next(state, place, &block[..n], &mut out);
        hand_on(log, &out[..r.end])?;
        if !r.going {
            return ending(log, place, &block[..n]);
        }
        state = r.state;
    }
    Err(PlayError::Cut)
}
