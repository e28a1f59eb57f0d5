//! The runs of a program and those of its tree of operations agree.
//!
//! The definitions stand in `lra_program` and `lra_operations`: the runs of a program, trees of operations with their
//! runs, and which tree stands for which program. Here it is proved that the two agree, for every tree that stands for
//! the program; `lra_inline` makes one.
#![tactic(auto)]

ghost use Rattle.lra_operations.specs.CheckedOperations.{TreesAgreeOnOverflows, TreesAgreeOnAccesses};
ghost use Rattle.lra_operations.specs.{Agree.TreesAgree, TracesAgree.TreesHaveTraces};
ghost use Rattle.lra_inline_sound.specs.Agreement.{WellFormedAreDistinct, WellFormedAgree, WellFormedHaveTraces};
ghost use Rattle.lra_inline_sound.specs.Agreement.{WellFormedAgreeOnOverflows, WellFormedAgreeOnAccesses};

pub use lra_resolution_spec::Labels;
/// A program's tree and its runs reach the same points with the same stores, and fail the same assertions.
///
/// Does nothing: its contract is the theorem.
pub fn trees_agree()
    ensures theorem { TreesAgree }
    ensures distinct { WellFormedAreDistinct }
    ensures well_formed { WellFormedAgree }
{}

/// On the way to each point and each failure, a program's tree and its runs pass the same points in the same states.
///
/// Does nothing: its contract is the theorem.
pub fn traces_agree()
    ensures theorem { TreesHaveTraces }
    ensures well_formed { WellFormedHaveTraces }
{}

/// A program's tree asks of each operation that can stop a run by a number, once at its point: where a run stops so,
/// the tree asks of that operation there.
///
/// Does nothing: its contract is the theorem.
pub fn trees_agree_on_overflows()
    ensures theorem { TreesAgreeOnOverflows }
    ensures well_formed { WellFormedAgreeOnOverflows }
{}

/// A program's tree has at each point at most one operation that accesses arrays: where a run's n-th access at a point
/// is outside its array, the n-th of that operation is.
///
/// Does nothing: its contract is the theorem.
pub fn trees_agree_on_accesses()
    ensures theorem { TreesAgreeOnAccesses }
    ensures well_formed { WellFormedAgreeOnAccesses }
{}
