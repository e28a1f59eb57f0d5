//! Cones by the double description method: the lines and rays of the solutions of rows that are added one by one.
//!
//! What a row makes of them is a step of `lra_double_description`.
#![tactic(auto)]

mod cone;
mod conversions;
mod losses;

pub use cone::{Cone, positive_cone};
pub use conversions::{Conversion, take_rows};
pub use losses::{Loss, LossRow};
pub use lra_double_description::{ConeError, Family, Member, RAY_LIMIT, Strained};
pub use lra_systems::{Cause, ConKind, ConSys};
