//! What is done in a tree beside a program's own operations.

/// What is done at a point beside the program's own operations, when a program is passed among others.
#[derive(Clone, Copy, PartialEq, Eq, Debug)]
pub enum Probe {
    /// Others may act, before the run goes on.
    InterferencePoint,
    /// The variable of this place has just got a value, which is noted.
    RecordWrite(usize),
}
