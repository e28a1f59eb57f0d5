//! The tests that an index is outside its array.

ghost use Rattle.std.specs.Prelude.{◌≡◌, ◌<◌, ◌^◌, length, IfOk};
ghost use Rattle.lra_bounds_checks.specs.Crates.lra_analysis_spec.Accesses.{outside};

use lra_domain::{ConKind, LinExpr, Test};
use lra_overflow_checks::{less_by, test_of};
use lra_program::Comparison;
use std::alloc::{AllocError, Global};

/// The tests that an index of this form is below 0, and that it is at least the array's length; `None` exactly if a
/// number of one of the two passes 64 bits.
pub fn outside(
    alloc: Global,
    index: &LinExpr,
    count: u32,
) -> Result<Option<(Test, Test)>, AllocError>
    requires { length index.now.coefficients < 2 ^ 62 }
    ensures { IfOk result (λ tests. tests ≡ outside index.now count) }
{
    let Some(under) = test_of(alloc, Comparison::Below, index)? else {
        return Ok(None);
    };
    let Some(expr) = less_by(alloc, index, count)? else {
        return Ok(None);
    };
    let over = Test {
        expr,
        kind: ConKind::Ge,
    };
    Ok(Some((under, over)))
}
