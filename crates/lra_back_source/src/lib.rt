//! From the bytes of a source to what going back from one of its assertions finds: the analysis over polyhedra under
//! the default options, going back over it, and the report of what is left at each point; or the one refusal.
#![tactic(auto)]

mod back_report;
mod laws;
mod refusals;

pub use back_report::back_source;
pub use laws::{back_or_refused, backs_are_defined, backs_are_sound, backs_have_same_points};
pub use refusals::{BackError, BackRefusal};
