// What can be reached from a corner, and which corners are odd.
#![tactic(auto)]

mod parity;
mod search;

pub use parity::{odd, odd_corners};
