// Streets and legs by value, as every layer above holds them, and the theorems about rounds.
#![tactic(auto)]

mod code;
mod leg;
mod street;
pub mod theorems;

pub use leg::Leg;
pub use street::Street;
