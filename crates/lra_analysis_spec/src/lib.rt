//! The iteration of an abstract interpretation as definitions, over any domain's meaning.
//!
//! The crate is all definitions: `specs/` is to be read from top to bottom, in the order of `specs/Lib.antt`. An
//! iterator's contract cites them, and so does whatever speaks of the values that an iterator gives. Of code it has
//! the types of what an analysis sees of numbers.
#![tactic(auto)]

mod linearization;

pub use linearization::{Division, Linearized};
pub use lra_domain::{
    Change, ConKind, ConSys, Domain, Exactness, Grown, Interfere, LinExpr, Mode, NoInterference,
    Row, Test, worse,
};
pub use lra_operations::{Arm, Cond, Expr, Node, Op, Operation, Slot};
