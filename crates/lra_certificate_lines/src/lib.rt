//! Lines of an input that is to be a certificate: where they begin, their numbers, why one is refused, and what those
//! of one path show, over the path's premises and the rows of its variables.
//!
//! Nothing here stands on a domain's values, on conversions or on an iteration.
#![tactic(auto)]

mod lines;
mod multiplier_lines;
mod numbers;
mod path_checks;
mod refusals;
mod symbolic;

pub use lines::{after_text, line_at, place_of, refuse, take_line};
pub use lra_certificate_spec::{Constraint, read_source};
pub use lra_multipliers::{Change, ConSys, Multipliers};
pub use lra_row::{ConKind, Row};
pub use numbers::numbers_behind;
pub use path_checks::{PathCheck, PathFacts};
pub use refusals::{LineFault, VerifyError, VerifyRefusal};
