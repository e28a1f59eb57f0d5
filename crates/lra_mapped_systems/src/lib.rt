//! Lists of generators and constraints as images, preimages and changes of dimensions form them.
#![tactic(auto)]

mod forming;
mod lists;
mod moving;

pub use forming::{Formed, assign_list, substitute_list};
pub use lists::{directions_of, embed_list, line_along, shorten, with_directions, with_line};
pub use lra_systems::{Cause, ConKind, GenSys, Row, RowError, TOO_MANY_DIMENSIONS};
pub use moving::{assign_canonically, invert, substitute_canonically};
