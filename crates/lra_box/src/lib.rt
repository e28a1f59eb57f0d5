//! Boxes: the domain with a lower and an upper bound for each dimension (Cousot and Cousot, 1976).
#![tactic(auto)]

mod bounds;
mod boxes;
mod ends;
mod interval;
mod intervals;
mod law;
mod parts;
mod refine;

pub use bounds::{opposite_row, wide_row};
pub use boxes::Boxes;
pub use ends::{Bound, plus_end, sum_end};
pub use interval::{Interval, Side, is_crossed, widen_lows};
pub use law::box_rows_are_bounds;
pub use refine::{Refined, refine_all};
