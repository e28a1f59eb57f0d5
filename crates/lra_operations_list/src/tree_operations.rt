//! What is done at a point.

use lra_linearize::NumberType;
use lra_operations::Op;
use lra_program::{Cond, Expr};

/// A least change; in a call whose own variables begin at the place, a condition on which it depends how the run goes
/// on, or the value that a `switch` looks for.
#[derive(Clone, Copy)]
pub enum OpRef<'a> {
    Change(&'a Op),
    Condition(usize, &'a Cond),
    Value(usize, &'a Expr),
}

/// What is done at a point, after a new variable of this type if there is one.
#[derive(Clone, Copy)]
pub struct OpRefAtPoint<'a> {
    pub point: usize,
    pub fresh: Option<NumberType>,
    pub doing: OpRef<'a>,
}
