//! What all stages share: places in a source with the causes for which it is refused, limits, and operators.
#![tactic(auto)]

mod case_labels;
mod error;
mod limits;
mod number_types;
mod operators;
mod places;
mod refusals;

pub use case_labels::CaseLabel;
pub use error::SourceError;
pub use limits::{GREATEST_ELEMENTS, GREATEST_LIVE, is_length};
pub use number_types::NumberType;
pub use operators::{Comparison, Operator};
pub use places::{GREATEST_LENGTH, place_after};
pub use refusals::{Cause, Place, Refusal};
