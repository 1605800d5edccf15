// Calls and answers as bytes.
#![tactic(auto)]

mod answer;
mod call;
mod kind;
pub mod laws;
mod legs;
mod row;
mod rows;
mod sequence;
mod unreadable;

pub use answer::{Answer, LEGS_AT, write_round};
pub use call::{Call, first_row};
pub use legs::{read_leg, write_leg, write_legs};
pub use row::{Row, write};
pub use sequence::CallRows;
pub use unreadable::Unreadable;
