// Blocks of 512 bytes.

#![tactic(auto)]

pub mod checks;

// What an accepted block is: a table, single steps, or one tick. (The table itself is read by `checks::table_of`.)
#[derive(Clone, Copy, Debug, PartialEq, Eq)]
pub enum BlockKind {
    Network,
    Steps,
    Tick,
}
