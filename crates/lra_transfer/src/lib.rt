//! What conditions and least changes of a program do to a value, for any domain.
#![tactic(auto)]

mod cases;
mod changes;
mod comparisons;
mod conditions;
mod globals;
mod splits;
mod types;

pub use changes::transfer_op;
pub use comparisons::filter_number;
pub use conditions::filter_condition;
pub use globals::append_globals;
pub use lra_linearize::{
    ConSys, Domain, Exactness, Grown, Interfere, LinExpr, Linearized, Mode, guard_thresholds_of,
    linearize, test_of, thresholds_of, worse,
};
pub use splits::{ConditionSplit, Kept, split};
