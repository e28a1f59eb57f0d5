//! Laws: what going back from an assertion must guarantee to the runs that fail there, and what trees of programs must
//! guarantee to going back. Each of these functions does nothing, and its contract is the theorem.
#![tactic(auto)]

mod laws;

pub use laws::{
    assertions_have_violations, backward_is_sound, nothing_left_at_first, one_point_is_first,
    paths_fit,
};
pub use lra_back::{BackFailure, BackwardAnalysis, back};
pub use lra_fixpoint::Domain;
