//! Linear forms of a program's expressions, divisions of them with their cases, tests of its comparisons, and the rows
//! that a loop is given: by its own condition, or by thresholds.
#![tactic(auto)]

mod cases;
mod comparisons;
mod forms;
mod guard_thresholds;
mod linearization;
mod thresholds;

pub use cases::{first_case, second_case};
pub use comparisons::{comparison_where, difference_of, less_by, opposite_of, test_of};
pub use forms::{
    apply_operator, constant_of, form_of_expression, form_of_one, has_no_variable, multiple_of,
};
pub use guard_thresholds::guard_thresholds_of;
pub use linearization::{linearize, linearize_difference, subtract_number};
pub use lra_analysis_spec::{
    Change, ConKind, ConSys, Division, Domain, Exactness, Grown, Interfere, LinExpr, Linearized,
    Mode, Test, worse,
};
pub use lra_base::NumberType;
pub use lra_operations::{Arm, Node, Op};
pub use lra_program::{Cond, Expr};
pub use thresholds::thresholds_of;
