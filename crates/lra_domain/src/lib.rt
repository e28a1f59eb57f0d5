//! What an abstract domain must guarantee to the iteration that stands on it, and interference: what others may do to
//! the stores of a run between two of its steps, and what a value becomes for them.
#![tactic(auto)]

pub mod backward;
pub mod bounds;
pub mod changes;
pub mod domain;
pub mod flags;
mod interference;

pub use backward::Backward;
pub use changes::{Change, change_all};
pub use domain::{BaseDomain, Domain, ExactParts};
pub use flags::worse;
pub use interference::{Interfere, NoInterference};
pub use lra_linear_forms::{LinExpr, Test, add, mul};
pub use lra_systems::{ConKind, ConSys, Row};

/// Whether a result is the defined one, or only covers it because a number or a count passed its limit.
#[derive(Clone, Copy, Debug, PartialEq, Eq)]
pub enum Exactness {
    Exact,
    Flagged,
}

/// The answer of an inclusion; `Wide` if a number passed the range before it was decided.
#[derive(Clone, Copy, Debug, PartialEq, Eq)]
pub enum Included {
    Yes,
    No,
    Wide,
}

/// How a head grows: by joins, by widening, by widening limited by the thresholds, or by the tightest of them alone.
#[derive(Clone, Copy, Debug, PartialEq, Eq)]
pub enum Mode {
    Join,
    Widen,
    Limited,
    Tightest,
}

/// What growing a head did.
#[derive(Clone, Copy, Debug, PartialEq, Eq)]
pub enum Grown {
    Stable,
    Grew(Exactness),
}

/// A rank of a head: four numbers, compared from the left.
#[derive(Clone, Copy, Debug, PartialEq, Eq, PartialOrd, Ord)]
pub struct Rank {
    pub first: u64,
    pub second: u64,
    pub third: u64,
    pub fourth: u64,
}
