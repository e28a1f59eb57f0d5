//! One step of the double description method: what a row that is added makes of a cone's lines and rays.
//!
//! The step is Chernikova's (1965), in two cases: with a line across the row, and without one. In the second only
//! adjacent pairs of rays are combined (Fukuda and Prodon 1996).
#![tactic(auto)]

mod columns;
mod line_step;
mod pairs;
mod products;
mod ray_step;
mod saturation;
mod sides;
mod strained;

pub use line_step::{Across, flat_lines, flat_rays, flat_saturation, orient_line};
pub use products::{last_across, multiply_all};
pub use ray_step::{Cut, RAY_LIMIT, cut_rays};
pub use strained::{ConeError, Family, Member, Strained};
