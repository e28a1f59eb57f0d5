//! From the bytes of a source to its tokens (ISO/IEC 9899:2011, 5.1.1.2 and 6.4).
//!
//! [`tokens`] answers the list of tokens exactly if the source has one, and else the first fault with its place.
//! [`one_reading`] is the law that makes this exact: a source has one list of tokens, or one first fault.
//! [`constants_of`] answers the values of the literals among the tokens.
#![tactic(auto)]

mod bytes;
mod constants;
mod gaps;
mod lexer;
mod literals;
mod marks;
mod spot;

pub use constants::constants_of;
pub use lexer::{one_reading, tokens};
pub use lra_base::Refusal;
