//! Worked examples of the iteration over boxes, as lemmas on its definitions, in `proofs/`. Laws alone: the same
//! iteration in code is tried by tests in a crate of their own.
#![tactic(auto)]
