// A table whose bridge records and agents' buses are lent lists.

#![tactic(auto)]

pub mod lends; // lends.rt: records held in arrays are lent
pub mod lists; // lists.rt: the lent lists
pub mod made; // made.rt: a table made record by record, all by value

// What no list gives: the number of buses, and the limits for P, R and C.
#[derive(Clone, Copy)]
pub struct Numbers {
    pub buses: u8,
    pub limits: [u8; 3],
}
