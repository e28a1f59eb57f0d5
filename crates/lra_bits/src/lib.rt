//! Lists of truth values, packed into words of 64 bits, and matrices of them.
#![tactic(auto)]

mod bit_row;
mod sat_matrix;
mod words;

pub use bit_row::BitRow;
pub use sat_matrix::SatMatrix;
