//! The operators of expressions and of comparisons.

/// The operator of `x op= e`.
#[derive(Clone, Copy, PartialEq, Eq, Debug)]
pub enum Operator {
    Plus,
    Minus,
    Times,
    Over,
    Modulo,
}

/// The operator of a comparison: `<`, `<=`, `>`, `>=`, `==`, `!=`.
#[derive(Clone, Copy, PartialEq, Eq, Debug)]
pub enum Comparison {
    Below,
    AtMost,
    Above,
    AtLeast,
    Equal,
    Differs,
}
