//! Octagonal matrices: bounds on the differences of signed variables (Miné, 2006), and their tight closure over whole
//! numbers (Bagnara, Hill and Zaffanella, 2008).
#![tactic(auto)]

mod cells;
mod clearing;
mod dbm;
mod pointwise;
mod shifting;
mod steps;

pub use cells::opposite;
pub use dbm::{Closing, Dbm};
pub use lra_domain::add;
