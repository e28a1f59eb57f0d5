//! What stands in a statement without being a statement: declarations, simple statements, and the heads of choices and
//! of loops, each resolved under its labels, or its first fault of names.
#![tactic(auto)]

mod around;
mod called;
mod cases;
mod declarations;
mod heads;
mod kinds;
mod labelling;
mod simple;
mod switches;

pub use around::Around;
pub use cases::CaseList;
pub use declarations::add_declaration;
pub use heads::{Asked, Head, LoopHead, Rounds, block_of, resolve_head, resolve_loop_head};
pub use kinds::resolve_simple;
pub use labelling::Labelling;
pub use lra_scopes::Labels;
pub use switches::{SwitchHead, resolve_switch_head};
