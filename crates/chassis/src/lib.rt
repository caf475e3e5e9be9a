// The table: buses, bridges and agents, and what follows from it alone.

#![tactic(auto)]

pub mod channels; // channels.rt: channels and their buses

// How much there may be: agents; channels, one for each agent and two for each of 15 bridges; records of one list, and their bytes.
pub const MOST_AGENTS: usize = 32;

pub const MOST_CHANNELS: usize = 62;

pub const MOST_RECORDS: usize = 63;

pub const MOST_RECORD_BYTES: usize = 8 * MOST_RECORDS;

// The same where they are held against a byte.
pub const MOST_AGENTS_U8: u8 = MOST_AGENTS as u8;

pub const MOST_CHANNELS_U8: u8 = MOST_CHANNELS as u8;

pub const MOST_RECORDS_U8: u8 = MOST_RECORDS as u8;

// Agent numbers, bus numbers and channel numbers are kept apart throughout: one type each.
#[derive(Clone, Copy, Debug, PartialEq, Eq)]
pub struct Agent(pub u8);

#[derive(Clone, Copy, Debug, PartialEq, Eq)]
pub struct Bus(pub u8);

#[derive(Clone, Copy, Debug, PartialEq, Eq)]
pub struct Chan(pub u8);

// A bridge record: two bus numbers.
#[derive(Clone, Copy, Debug, PartialEq, Eq)]
pub struct Bridge {
    pub first: Bus,
    pub second: Bus,
}

// A list of bridge records and one bus for each agent make the table; `limits` are those for P, R and C. (Arrays with their counts
// beside: memory is fixed, and a table as a fitter brings it may count more than it has: grounds 23 and 24.)
#[derive(Clone, Copy, Debug, PartialEq, Eq)]
pub struct Table {
    pub buses: u8,
    pub bridges: u8,
    pub agents: u8,
    pub limits: [u8; 3],
    pub pairs: [Bridge; 15],
    pub homes: [Bus; MOST_AGENTS],
}

// The next place on a way: the target itself, or a bridge channel. (No Option: document 01 names both, and None would not say that the
// target is next.)
#[derive(Clone, Copy, Debug, PartialEq, Eq)]
pub enum NextPlace {
    Target,
    Through(Chan),
}
