//! Linear mathematics over lists of whole numbers: definitions and lemmas, and the few types that they speak of.
#![tactic(auto)]

ghost use Rattle.std.specs.Prelude.{◌≡◌, ◌↔◌, IsTrue};
ghost use Rattle.lra_linear_spec.specs.{Descriptions.HoldsWith, Kinds.is_equality, Kinds.is_line};

/// Which of the two operations of a product of rows passes the range.
#[derive(Clone, Copy, Debug, PartialEq, Eq)]
pub enum Operation {
    Product,
    Sum,
}

/// The product or partial sum that passes the range: `left` times `right`, or `left` plus `right`.
#[derive(Clone, Copy, Debug, PartialEq, Eq)]
pub struct Excess {
    pub op: Operation,
    pub left: i128,
    pub right: i128,
}

/// Why a row was left out: a number passes the range, or there would be so many rows, more than a description may have.
#[derive(Clone, Copy, Debug, PartialEq, Eq)]
pub enum Cause {
    Excess(Excess),
    TooMany(usize),
}

/// What a constraint asks of its product with a point, and a test of its form's value: to be at least 0, or to be 0.
#[derive(Clone, Copy, Debug, PartialEq, Eq, PartialOrd, Ord, Hash)]
pub enum ConKind {
    Ge,
    Eq,
}

impl ConKind {
    /// Whether it asks for 0.
    pub fn is_equality(self) -> bool
        ensures { result ≡ is_equality self }
    {
        self == ConKind::Eq
    }

    /// Whether a value is as the kind asks.
    pub fn accepts(self, value: i128) -> bool
        ensures { IsTrue result ↔ HoldsWith (is_equality self) value }
    {
        match self {
            ConKind::Ge => value >= 0,
            ConKind::Eq => value == 0,
        }
    }
}

/// What a generator is. Column 0 of a point is its divisor, at least 1; rays and lines have 0 there. A list takes any
/// row.
#[derive(Clone, Copy, Debug, PartialEq, Eq, PartialOrd, Ord, Hash)]
pub enum GenKind {
    Point,
    Ray,
    Line,
}

impl GenKind {
    /// Whether a generator of the kind may be taken with either sign.
    pub fn goes_both_ways(self) -> bool
        ensures { result ≡ is_line self }
    {
        self == GenKind::Line
    }
}
