// A first program over the library. It calls each entry point: `check_arrays`, `open`, `route`, `step`, `tick`. None of
// them asks anything of its caller, so this program needs no proof by hand. docs/PROGRAMMERS.md says what they answer.
// A line that cannot be written ends it with that error.
//
// The chassis is that of the README: buses 0, 1 and 2 in a row, bridge 0 between the first two and bridge 1 between the
// last two; agent 0 on bus 0, agent 1 on bus 1, agents 2 and 3 on bus 2. So channels 0 to 3 are the agents' own, 4 and
// 5 are bridge 0 forth and back, 6 and 7 bridge 1.

#![tactic(auto)]

use base::Refusal;
use chassis::{Agent, Bridge, Bus, Chan, MOST_AGENTS, NextPlace, Table};
use find_routes::routes::route;
use lent_plays::steps::step;
use lent_tables::Numbers;
use lent_tables::lends::check_arrays;
use lent_ticks::at_once::tick;
use network::{State, open, zero};
use std::io;
use ticks::TickRefusal;

fn bridge(first: Bus, second: Bus) -> Bridge {
    Bridge { first, second }
}

// What the table does not use is 0, and so are the places behind its two bridges and four agents.
fn chassis() -> Table {
    let mut pairs = [bridge(Bus(0), Bus(0)); 15];
    pairs[0] = bridge(Bus(0), Bus(1));
    pairs[1] = bridge(Bus(1), Bus(2));
    let mut homes = [Bus(0); MOST_AGENTS];
    homes[1] = Bus(1);
    homes[2] = Bus(2);
    homes[3] = Bus(2);
    Table {
        buses: 3,
        bridges: 2,
        agents: 4,
        limits: [2, 1, 1],
        pairs: pairs,
        homes: homes,
    }
}

// An event is eight bytes. A begin (kinds 1 to 3) names master and target.
fn begin(kind: u8, master: Agent, target: Agent) -> [u8; 8] {
    [kind, 0, master.0, target.0, 0, 0, 0, 0]
}

// The other kinds name a channel and, by master and number, the transaction.
fn named(kind: u8, channel: Chan, master: Agent, number: u16) -> [u8; 8] {
    let [low, high] = number.to_le_bytes();
    [kind, channel.0, master.0, 0, low, high, 0, 0]
}

// A table passes, or is refused with 23 to 27.
fn show_table(rt: &impl Print, what: &str, a: Result<(), Refusal>) -> io::Result<()> {
    let number = a.map_or_else(u8::from, |_| 0);
    println!(rt; "{what}: {number}")
}

// A way goes on through a bridge channel, or has reached the agent's bus.
fn show_route(rt: &impl Print, what: &str, a: Result<NextPlace, Refusal>) -> io::Result<()> {
    match a {
        Ok(NextPlace::Target) => println!(rt; "{what}: the agent itself"),
        Ok(NextPlace::Through(channel)) => println!(rt; "{what}: channel {}", channel.0),
        Err(ground) => println!(rt; "{what}: refused, {}", u8::from(ground)),
    }
}

// A step: 0 and a value, or a number and 0. The state behind it is handed on; after a refusal it is the one handed in.
fn show_step(rt: &impl Print, what: &str, s: State, record: &[u8]) -> io::Result<State> {
    let r = step(s, record);
    match r.answer {
        Ok(value) => println!(rt; "{what}: refusal 0, value {value}")?,
        Err(ground) => println!(rt; "{what}: refusal {}, value 0", u8::from(ground))?,
    }
    Ok(r.state)
}

// A tick: accepted as a whole, or one record is refused, or two conflict.
fn show_tick(rt: &impl Print, what: &str, a: Result<(), TickRefusal>) -> io::Result<()> {
    match a {
        Ok(()) => println!(rt; "{what}: refusal 0, records 0 and 0"),
        Err(TickRefusal::Refused { ground, record }) => {
            println!(rt;
                "{what}: refusal {}, records {record} and 0",
                u8::from(ground)
            )
        }
        Err(TickRefusal::Conflict { record, other }) => {
            println!(rt; "{what}: refusal 15, records {record} and {other}")
        }
    }
}

// `check`: whoever holds plain lists can have them checked before a table is made of them. `check_arrays` lends it the
// first so many places of two arrays.
fn check_lists(rt: &impl Print) -> io::Result<()> {
    let numbers = Numbers {
        buses: 3,
        limits: [2, 1, 1],
    };
    let mut bridges = [bridge(Bus(0), Bus(0)); 16];
    bridges[0] = bridge(Bus(0), Bus(1));
    bridges[1] = bridge(Bus(1), Bus(2));
    let mut homes = [Bus(0); 33];
    homes[1] = Bus(1);
    homes[2] = Bus(2);
    homes[3] = Bus(2);
    show_table(
        rt,
        "check of the lists",
        check_arrays(numbers, bridges, homes, 2, 4),
    )?;
    show_table(
        rt,
        "check without bridge 1",
        check_arrays(numbers, bridges, homes, 1, 4),
    )
}

// `route`: the way from agent 0 to agent 2 begins in channel 0. There is no channel 8.
fn ask_routes(rt: &impl Print, t: Table) -> io::Result<()> {
    show_route(
        rt,
        "route from channel 0 to agent 2",
        route(t, Chan(0), Agent(2)),
    )?;
    show_route(
        rt,
        "route from channel 4 to agent 2",
        route(t, Chan(4), Agent(2)),
    )?;
    show_route(
        rt,
        "route from channel 6 to agent 2",
        route(t, Chan(6), Agent(2)),
    )?;
    show_route(
        rt,
        "route from channel 8 to agent 2",
        route(t, Chan(8), Agent(2)),
    )
}

// `step`: a posted write and a read behind it. The read may not go first (9); the write goes over bridge 0.
fn take_steps(rt: &impl Print, s: State) -> io::Result<State> {
    let s = show_step(rt, "begin posted", s, &begin(1, Agent(0), Agent(2)))?;
    let s = show_step(rt, "begin read", s, &begin(2, Agent(0), Agent(2)))?;
    let s = show_step(rt, "latch", s, &named(6, Chan(0), Agent(0), 2))?;
    show_step(rt, "post", s, &named(5, Chan(0), Agent(0), 1))
}

// `tick`: the read follows the write over bridge 0 (a latch of channel 0, master 0, number 2), and agent 1 begins a
// posted write to agent 2. The values of the two records go to the list that is lent.
fn take_a_tick(rt: &impl Print, s: State) -> io::Result<State> {
    let records: [u8; 16] = [6, 0, 0, 0, 2, 0, 0, 0, 1, 0, 1, 2, 0, 0, 0, 0];
    let mut values: [u16; 2] = [0; 2];
    let r = tick(s, &records, &mut values);
    show_tick(rt, "tick of a latch and a begin", r.answer)?;
    println!(rt; "values {} {}", values[0], values[1])?;
    Ok(r.state)
}

// A refused tick changes nothing, so its state need not be kept. Two begins of one agent conflict; and the first write
// is no longer in channel 0.
fn refuse_ticks(rt: &impl Print, s: State) -> io::Result<()> {
    let mut values: [u16; 2] = [0; 2];
    let begins: [u8; 16] = [1, 0, 1, 2, 0, 0, 0, 0, 1, 0, 1, 2, 0, 0, 0, 0];
    let two = tick(s, &begins, &mut values);
    show_tick(rt, "tick of two begins", two.answer)?;
    let wrong: [u8; 16] = [1, 0, 1, 2, 0, 0, 0, 0, 5, 0, 0, 0, 1, 0, 0, 0];
    let refused = tick(s, &wrong, &mut values);
    show_tick(rt, "tick with a wrong post", refused.answer)
}

// A state is plain data and can be looked at: the write and the copy of the read wait in channel 4.
fn look(rt: &impl Print, s: State) -> io::Result<()> {
    println!(rt; "entries in channel 4: {}", s.channels[4].count)
}

// What only callers meet: a state that is not sound, record bytes that are not whole, too short a list.
fn call_wrongly(rt: &impl Print, s: State) -> io::Result<()> {
    let records: [u8; 16] = [1, 0, 1, 2, 0, 0, 0, 0, 1, 0, 2, 1, 0, 0, 0, 0];
    show_step(rt, "step in the all-zero state", zero(), &records[..8])?;
    show_step(rt, "step of seven bytes", s, &records[..7])?;
    let mut values: [u16; 1] = [0; 1];
    let r = tick(s, &records, &mut values);
    show_tick(rt, "tick with one place for two", r.answer)
}

// `open`: the empty network of a table stands beside the answer.
fn main(rt: HostRuntime) -> io::Result<()> {
    check_lists(&rt)?;
    let t = chassis();
    let opened = open(t, false);
    show_table(&rt, "open", opened.answer)?;
    ask_routes(&rt, t)?;
    let s = take_steps(&rt, opened.state)?;
    let s = take_a_tick(&rt, s)?;
    refuse_ticks(&rt, s)?;
    look(&rt, s)?;
    call_wrongly(&rt, s)
}
