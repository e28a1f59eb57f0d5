//! Readers of the grammar's productions, and that each of them is exact.
//!
//! `specs/` has the readers: functions from a text of tokens to a value and the text after it, or to a fault.
//! `proofs/` shows that each reads exactly what its production spells: `Exact` says what that is, the files up to
//! `Parts` are the library, and those named `Exact..` have the productions.
//! The code has what reads a single token, and faults. `lra_parse_expressions` and `lra_parse` compute the readers of
//! the rest.
#![tactic(auto)]

ghost use Rattle.lra_syntax.specs.{Faults.OneTree, Faults.OneTextFault, Grammar.Spells};

mod lead;
mod reading;

pub use lead::Lead;
pub use lra_base::Cause;
pub use reading::{
    Fault, Literal, Stopped, expect, expect_at, next_is, next_is_name, next_literal, next_small,
    push_boxed, read_name, stop, tail,
};

/// A law of the language: no text has two trees, and no list of tokens has two first faults, or a fault and a tree.
pub fn one_tree()
    ensures tree { OneTree Spells }
    ensures fault { OneTextFault Spells }
{}
