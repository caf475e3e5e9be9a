// What is said of a record by one who is told what its channels show: a refusal, or what is to be done.

#![tactic(auto)]

pub mod judges;

use network::Act;

// What is to be done where a judge accepts: up to three channels changed. `value` is the event's; `raises`: it is its master's new
// count too. (So no Option: an event has a value whether or not it raises a count.)
#[derive(Clone, Copy, Debug, PartialEq, Eq)]
pub struct Plan {
    pub value: u16,
    pub raises: bool,
    pub first: Act,
    pub second: Act,
    pub third: Act,
}
