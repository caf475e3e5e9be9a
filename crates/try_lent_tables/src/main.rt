// Tables of document 01 whose lists are lent, and the number of each answer: 0 is accepted. The lists lie in arrays, of which `check_arrays` lends the first few.

#![tactic(auto)]

use base::Refusal;
use chassis::{Bridge, Bus};
use lent_tables::Numbers;
use lent_tables::lends::{between_arrays, check_arrays};
use std::io;

fn show(rt: &impl Print, what: &str, r: Result<(), Refusal>) -> io::Result<()> {
    let n = r.err().map_or(0, u8::from);
    println!(rt; "{what}{n}")
}

// The bridge between two buses, or none; or the number of a refusal.
fn show_joined(rt: &impl Print, what: &str, r: Result<Option<u8>, Refusal>) -> io::Result<()> {
    match r {
        Err(e) => {
            let n = u8::from(e);
            println!(rt; "{what}refused, {n}")
        }
        Ok(None) => println!(rt; "{what}none"),
        Ok(Some(g)) => println!(rt; "{what}bridge {g}"),
    }
}

// So many buses; the limits are T's.
fn numbers(n: u8) -> Numbers {
    let limits = [2, 1, 1];
    Numbers { buses: n, limits }
}

fn bridge(a: u8, b: u8) -> Bridge {
    Bridge {
        first: Bus(a),
        second: Bus(b),
    }
}

// Each from one bus to the next.
fn chain() -> [Bridge; 16] {
    let mut gs = [bridge(0, 0); 16];
    for i in 0..16u8 {
        gs[i as usize] = bridge(i, i + 1);
    }
    gs
}

fn main(rt: HostRuntime) -> io::Result<()> {
    let hs = [Bus(0); 33];
    let gs = chain();
    show(
        &rt,
        "1 bus, 0 bridges, 1 agent: ",
        check_arrays(numbers(1), gs, hs, 0, 1),
    )?;
    show(
        &rt,
        "2 buses, 0 bridges: ",
        check_arrays(numbers(2), gs, hs, 0, 2),
    )?;
    show(
        &rt,
        "16 buses in a chain: ",
        check_arrays(numbers(16), gs, hs, 15, 32),
    )?;
    show(&rt, "17 buses: ", check_arrays(numbers(17), gs, hs, 15, 1))?;
    show(
        &rt,
        "16 bridges lent: ",
        check_arrays(numbers(16), gs, hs, 16, 1),
    )?;
    show(
        &rt,
        "33 agents lent: ",
        check_arrays(numbers(1), gs, hs, 0, 33),
    )?;
    show(
        &rt,
        "no agent lent: ",
        check_arrays(numbers(1), gs, hs, 0, 0),
    )?;
    let twice = [bridge(0, 1); 16];
    show(
        &rt,
        "two bridges (0, 1) with 2 buses: ",
        check_arrays(numbers(2), twice, hs, 2, 1),
    )?;
    let same = [bridge(1, 1); 16];
    show(
        &rt,
        "a bridge with both ends on one bus: ",
        check_arrays(numbers(2), same, hs, 1, 1),
    )?;
    show(
        &rt,
        "a bridge on a bus that is not there: ",
        check_arrays(numbers(1), gs, hs, 1, 1),
    )?;
    show_joined(
        &rt,
        "15 in a chain, between 14 and 15: ",
        between_arrays(gs, 15, Bus(14), Bus(15)),
    )?;
    show_joined(
        &rt,
        "15 in a chain, between 3 and 2: ",
        between_arrays(gs, 15, Bus(3), Bus(2)),
    )?;
    show_joined(
        &rt,
        "15 in a chain, between 0 and 2: ",
        between_arrays(gs, 15, Bus(0), Bus(2)),
    )?;
    show_joined(
        &rt,
        "two bridges (0, 1): ",
        between_arrays(twice, 2, Bus(0), Bus(1)),
    )?;
    show_joined(
        &rt,
        "no bridge lent: ",
        between_arrays(gs, 0, Bus(0), Bus(1)),
    )?;
    show_joined(
        &rt,
        "16 bridges lent: ",
        between_arrays(gs, 16, Bus(0), Bus(1)),
    )
}
