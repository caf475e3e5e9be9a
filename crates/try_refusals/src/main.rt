// Calls of the library that no input of the program can make: unsound states (16), answer lists that are too short (17), record
// bytes that are not whole or too many (18). Each line: what is called, the number, the value or the two records, then the lent
// answer list, whose places are 7 before each call.

#![tactic(auto)]

use base::Refusal;
use chassis::{Agent, Bridge, Bus, MOST_AGENTS, Table};
use events::{Event, Step};
use lent_plays::steps::{inner_step, step};
use lent_ticks::at_once::tick;
use logs::runs::{tick_number, tick_other, tick_record};
use network::soundness::is_sound;
use network::{State, open, zero};
use std::io;

// One bus with two agents.
fn table() -> Table {
    Table {
        buses: 1,
        bridges: 0,
        agents: 2,
        limits: [1; 3],
        pairs: [Bridge {
            first: Bus(0),
            second: Bus(0),
        }; 15],
        homes: [Bus(0); MOST_AGENTS],
    }
}

// Document 01's number and value: 0 where there is none.
fn step_answer(rt: &impl Print, name: &str, a: Result<u16, Refusal>) -> io::Result<()> {
    let number = a.map_or_else(u8::from, |_| 0);
    let value = a.unwrap_or(0);
    println!(rt; "{name} {number} {value}")
}

fn step_line(rt: &impl Print, name: &str, s: State, r: &[u8]) -> io::Result<()> {
    step_answer(rt, name, step(s, r).answer)
}

// The step for whoever holds a sound state: its caller asks 16 itself.
fn inner_line(rt: &impl Print, name: &str, s: State, x: Step) -> io::Result<()> {
    if !is_sound(s) {
        return Ok(());
    }
    step_answer(rt, name, inner_step(s, x).answer)
}

fn tick_line(
    rt: &impl Print,
    name: &str,
    s: State,
    r: &[u8],
    answers: &mut [u16],
) -> io::Result<()> {
    let a = tick(s, r, answers).answer;
    let number = tick_number(a);
    let record = tick_record(a);
    let other = tick_other(a);
    print!(rt; "{name} {number} {record} {other}")?;
    for value in answers.iter() {
        print!(rt; " {value}")?;
    }
    rt.println("")
}

fn main(rt: HostRuntime) -> io::Result<()> {
    let s = open(table(), false).state;
    // begins of agent 0 and of agent 1
    let both: [u8; 16] = [1, 0, 0, 1, 0, 0, 0, 0, 1, 0, 1, 0, 0, 0, 0, 0];
    let long: [u8; 512] = [0; 512];
    step_line(&rt, "step in the zero state", zero(), &both[..8])?;
    step_line(&rt, "step of 7 bytes", s, &both[..7])?;
    step_line(&rt, "step of 9 bytes", s, &both[..9])?;
    step_line(&rt, "step of no bytes", s, &both[..0])?;
    step_line(&rt, "step of 8 bytes", s, &both[..8])?;
    let begin = Event::BeginPosted {
        master: Agent(0),
        target: Agent(1),
    };
    let x = Step {
        block: 1,
        place: 0,
        event: begin,
    };
    inner_line(&rt, "inner step of a begin", s, x)?;
    let mut one: [u16; 1] = [7; 1];
    let mut two: [u16; 2] = [7; 2];
    let mut three: [u16; 3] = [7; 3];
    tick_line(&rt, "tick in the zero state", zero(), &both, &mut three)?;
    tick_line(&rt, "tick of 15 bytes", s, &both[..15], &mut three)?;
    tick_line(&rt, "tick of 505 bytes", s, &long[..505], &mut three)?;
    tick_line(&rt, "tick of 512 bytes", s, &long, &mut three)?;
    tick_line(&rt, "tick of 2 records with 1 place", s, &both, &mut one)?;
    tick_line(&rt, "tick of 2 records with 2 places", s, &both, &mut two)?;
    tick_line(
        &rt,
        "tick of 1 record with 3 places",
        s,
        &both[..8],
        &mut three,
    )?;
    tick_line(
        &rt,
        "tick of no record with 1 place",
        s,
        &both[..0],
        &mut one,
    )
}
