//! The labels of a `switch`.

/// `case` with its value, or `default`.
#[derive(Clone, Copy, PartialEq, Eq, Debug)]
pub enum CaseLabel {
    Case(i64),
    Default,
}
