//! Arrays.

use lra_base::{NumberType, Place};

/// An array, as its declaration has it.
#[derive(Clone, Copy, PartialEq, Eq, Debug)]
pub struct Array {
    /// The place of the name that the declaration gives it, which no other array has.
    pub declared: Place,
    /// How many elements it has.
    pub length: u32,
    /// Their type.
    pub number_type: NumberType,
}
