// The judges: each kind's grounds in its order, then what is to be done. They see no channel, only what was read off it.
ghost use Rattle.std.specs.Prelude.{◌≡◌, not, ◌&&◌, ◌<◌};
ghost use Rattle.events.specs.Accounts.{account};
ghost use Rattle.judge_events.specs.Plans.{no_act, does, at_channel, entering, answer_entering};
ghost use Rattle.read_events.specs.Sights.{small};
ghost use Rattle.judge_events.specs.Verdicts.{begin_verdict, commit_verdict, post_verdict, latch_verdict, latch_verdict_on, complete_verdict, complete_verdict_on, answer_verdict, drop_request_verdict, drop_completion_verdict, verdict};

use crate::Plan;
use base::Refusal;
use chassis::channels::{is_master, opposite};
use chassis::{Agent, Chan, NextPlace, Table};
use events::Event;
use network::Act;
use queue::{C, Change, Entry, Look, P, R, Transaction};
use read_events::Sight;

fn no_act() -> Act
    ensures { result ≡ no_act }
{
    Act {
        at: Chan(0),
        change: Change::Nothing,
    }
}

fn done(first: Act, second: Act, third: Act) -> Plan
    ensures { result ≡ does first second third }
{
    Plan {
        value: 0,
        raises: false,
        first,
        second,
        third,
    }
}

// Nothing is to be done.
pub fn no_plan() -> Plan
    ensures { result ≡ does no_act no_act no_act }
{
    done(no_act(), no_act(), no_act())
}

fn changes(at: Chan, change: Change) -> Act
    ensures { result ≡ at_channel at change }
{
    Act { at, change }
}

// Begins: 4, 5.
fn judge_begin(
    count: u16,
    full: bool,
    kind: u8,
    write: bool,
    m: Agent,
    a: Agent,
) -> Result<Plan, Refusal>
    ensures { result ≡ begin_verdict count full kind write m a }
{
    if 65535 <= count {
        return Err(Refusal::AllBegun);
    }
    if full {
        return Err(Refusal::NoRoom);
    }
    let number = count + 1;
    let x = Entry {
        transaction: Transaction { master: m, number },
        kind,
        target: a,
        write,
        committed: false,
    };
    Ok(Plan {
        value: number,
        raises: true,
        first: changes(Chan(m.0), Change::Add(x)), // its master channel
        second: no_act(),
        third: no_act(),
    })
}

// Commit: 6, 8, 9.
fn judge_commit(n: Chan, l: Option<Look>) -> Result<Plan, Refusal>
    ensures { result ≡ commit_verdict n l }
{
    let l = l.ok_or(Refusal::NoSuchEntry)?;
    if l.entry.committed {
        return Err(Refusal::AlreadyCommitted);
    }
    if l.behind {
        return Err(Refusal::BehindPosted);
    }
    // The named entry gets its mark.
    let marked = changes(n, Change::Mark(l.entry));
    Ok(done(marked, no_act(), no_act()))
}

// The P goes on to N1; at the target it ends.
fn enters(next: NextPlace, x: Entry) -> Act
    ensures { result ≡ entering next x }
{
    match next {
        NextPlace::Target => no_act(),
        NextPlace::Through(n) => changes(n, Change::Add(x)),
    }
}

// The named entry leaves.
fn takes_out(n: Chan, x: Entry) -> Act
    ensures { result ≡ at_channel n (Change.TakeOut x) }
{
    changes(n, Change::TakeOut(x))
}

// Post: 6, 9, 5.
fn judge_post(n: Chan, l: Option<Look>, next: NextPlace, full: bool) -> Result<Plan, Refusal>
    ensures { result ≡ post_verdict n l next full }
{
    let l = l.ok_or(Refusal::NoSuchEntry)?;
    if l.behind {
        return Err(Refusal::BehindPosted);
    }
    if full {
        return Err(Refusal::NoRoom);
    }
    Ok(done(takes_out(n, l.entry), enters(next, l.entry), no_act()))
}

// Latch, where N1 is a bridge channel: 9, 10, 5.
fn judge_latch_on(n: Chan, l: Look, ahead: Chan, g: Sight) -> Result<Plan, Refusal>
    ensures { result ≡ latch_verdict_on n l ahead g }
{
    if l.behind {
        return Err(Refusal::BehindPosted);
    }
    if g.waits || g.answer.is_some() {
        return Err(Refusal::AlreadyLatched);
    }
    if g.full {
        return Err(Refusal::NoRoom);
    }
    let marked = changes(n, Change::Mark(l.entry));
    let copied = changes(ahead, Change::Add(l.entry.as_kind(R)));
    Ok(done(marked, copied, no_act()))
}

// Latch: 6, 11.
fn judge_latch(n: Chan, l: Option<Look>, next: NextPlace, g: Sight) -> Result<Plan, Refusal>
    ensures { result ≡ latch_verdict n l next g }
{
    let l = l.ok_or(Refusal::NoSuchEntry)?;
    match next {
        NextPlace::Target => Err(Refusal::AtTarget),
        NextPlace::Through(ahead) => judge_latch_on(n, l, ahead, g),
    }
}

// In a bridge channel a C enters the opposite of N, else the transaction ends.
fn gives_answer(t: Table, n: Chan, x: Entry) -> Act
    requires { n.0 < 255 }
    ensures { result ≡ answer_entering t n x }
{
    if is_master(t, n) {
        return no_act();
    }
    changes(opposite(t, n), Change::Add(x.as_kind(C)))
}

// Complete, where nothing is left but room for the new C: 5.
fn judge_answer(n: Chan, l: Look, taken: Act, given: Act, full: bool) -> Result<Plan, Refusal>
    ensures { result ≡ answer_verdict n l taken given full }
{
    if full {
        return Err(Refusal::NoRoom);
    }
    Ok(done(takes_out(n, l.entry), taken, given))
}

// A read's C does not pass a P; a write's C may.
fn waits_for_p(l: Look) -> bool
    ensures { result ≡ not l.entry.write && l.behind }
{
    !l.entry.write && l.behind
}

// Complete, where N1 is a bridge channel: 12, 14.
fn judge_complete_on(
    t: Table,
    n: Chan,
    l: Look,
    ahead: Chan,
    given: Act,
    g: Sight,
) -> Result<Plan, Refusal>
    requires { ahead.0 < 255 }
    ensures { result ≡ complete_verdict_on t n l ahead given g.full g.answer }
{
    let answer = g.answer.ok_or(Refusal::NoAnswer)?;
    if waits_for_p(answer) {
        return Err(Refusal::AnswerBehind);
    }
    // The C that matches the request leaves.
    let taken = changes(opposite(t, ahead), Change::TakeMatching(l.entry));
    judge_answer(n, l, taken, given, g.full)
}

// Complete: 6, 9.
fn judge_complete(
    t: Table,
    n: Chan,
    l: Option<Look>,
    next: NextPlace,
    g: Sight,
) -> Result<Plan, Refusal>
    requires { (n.0 < 255) × small next }
    ensures { result ≡ complete_verdict t n l next g }
{
    let l = l.ok_or(Refusal::NoSuchEntry)?;
    if l.behind {
        return Err(Refusal::BehindPosted);
    }
    let given = gives_answer(t, n, l.entry);
    match next {
        NextPlace::Target => judge_answer(n, l, no_act(), given, g.full),
        NextPlace::Through(ahead) => judge_complete_on(t, n, l, ahead, given, g),
    }
}

// Drop request: 6, 7, 8.
fn judge_drop_request(t: Table, n: Chan, l: Option<Look>) -> Result<Plan, Refusal>
    ensures { result ≡ drop_request_verdict t n l }
{
    let l = l.ok_or(Refusal::NoSuchEntry)?;
    if is_master(t, n) {
        return Err(Refusal::InMaster);
    }
    if l.entry.committed {
        return Err(Refusal::AlreadyCommitted);
    }
    Ok(done(takes_out(n, l.entry), no_act(), no_act()))
}

// Drop completion: 6, 13.
fn judge_drop_completion(n: Chan, l: Option<Look>, oldest: bool) -> Result<Plan, Refusal>
    ensures { result ≡ drop_completion_verdict n l oldest }
{
    let l = l.ok_or(Refusal::NoSuchEntry)?;
    if oldest {
        return Err(Refusal::OldestAnswer);
    }
    Ok(done(takes_out(n, l.entry), no_act(), no_act()))
}

// The kind's own judge. A record that is refused before comes to none: it has no frame.
#[tactic(auto, unfolding(crate::specs::Verdicts::verdict))]
pub fn judge(
    t: Table,
    e: Event,
    count: u16,
    l: Option<Look>,
    next: NextPlace,
    g: Sight,
) -> Result<Plan, Refusal>
    requires { ((account e).channel.0 < 255) × small next }
    ensures { result ≡ verdict t e count l next g }
{
    match e {
        Event::BeginPosted { master, target } => judge_begin(
            count, g.full, P, true, master, target,
        ),
        Event::BeginRead { master, target } => judge_begin(count, g.full, R, false, master, target),
        Event::BeginWrite { master, target } => judge_begin(count, g.full, R, true, master, target),
        Event::Commit { channel, .. } => judge_commit(channel, l),
        Event::Post { channel, .. } => judge_post(channel, l, next, g.full),
        Event::Latch { channel, .. } => judge_latch(channel, l, next, g),
        Event::Complete { channel, .. } => judge_complete(t, channel, l, next, g),
        Event::DropRequest { channel, .. } => judge_drop_request(t, channel, l),
        Event::DropCompletion { channel, .. } => judge_drop_completion(channel, l, g.oldest),
    }
}
