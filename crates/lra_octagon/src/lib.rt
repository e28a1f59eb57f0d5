//! Octagons: the domain of bounds on sums and differences of two variables (Miné, 2006), over whole numbers.
#![tactic(auto)]

mod assigning;
mod bounds;
mod closing;
mod form_bounds;
mod forms;
mod law;
mod octagon;
mod parts;
mod testing;
mod tightness;
mod unary;

pub use law::{exact_octagons_are_tight, octagon_rows_are_bounds};
pub use lra_box::Boxes;
pub use lra_domain::Domain;
pub use lra_linear_spec::ConKind;
pub use octagon::Octagon;
