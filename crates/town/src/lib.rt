// Streets and corners in memory that the caller lends. Only this crate knows the layout.
#![tactic(auto)]

mod changes;
pub mod laws;
mod layout;
mod limit;
mod lists;
mod reading;
mod refusal;

pub use changes::{TownMut, open_town};
pub use limit::Limits;
pub use reading::TownRef;
pub use refusal::Refusal;
