//! What is judged to fit in `int x = input(); x = x + 1; x = x - 1;` and its end, by the values of its analyses.

ghost use Rattle.std.specs.Prelude.{◌≡◌, [], map, false, IfOk};
ghost use Rattle.lra_tests_analyses.specs.Crates.lra_base.OperatorViews.{operator_view};
ghost use Rattle.lra_operations.specs.TreeViews.{node_view, op_view, site_view};
ghost use Rattle.lra_tests_analyses.specs.Steps.{steps_tree, steps_sites, stepped};

use crate::steps::{read_x, steps};
use lra_bounds_checks::{OverflowVerdicts, judge};
use lra_octagon::{Boxes, Domain, Octagon};
use lra_operations::{InlinedProgram, Op};
use lra_program::{Expr, NumberType, Operation, Operator, Receiver};
use lra_threads_instrument::{Plan, analyse};
use std::alloc::{AllocError, Global};

/// `x = x + 1` or the like.
fn step(alloc: Global, operator: Operator) -> Result<Op, AllocError>
    ensures { IfOk result (λ op. op_view op ≡ stepped (operator_view operator)) }
{
    let mut operations = Vec::new(alloc);
    operations.push(Operation {
        operator,
        operand: Expr::Literal(NumberType::Int, 1),
    })?;
    let stepped = Expr::Chain(Box::new(alloc, read_x())?, operations);
    let receiver = Receiver::variable(0, NumberType::Int);
    Ok(Op::StoreValue(0, receiver, stepped))
}

/// The tree and its points.
fn step_both_ways(alloc: Global) -> Result<InlinedProgram, AllocError>
    ensures tree { IfOk result (λ g. node_view g.tree ≡ steps_tree) }
    ensures sites { IfOk result (λ g. map site_view g.sites.items ≡ steps_sites) }
{
    let more = step(alloc, Operator::Plus)?;
    let less = step(alloc, Operator::Minus)?;
    steps(alloc, more, less)
}

/// What is judged of it, by the values of its analysis over a domain.
fn judge_steps<D: Domain>(alloc: Global) -> Result<OverflowVerdicts, AllocError> {
    let plan = Plan::of(alloc, lra_options::DEFAULT_OPTIONS, &[])?;
    let graph = step_both_ways(alloc)?;
    let solution = analyse::<D>(alloc, &plan, &[], &graph)?;
    judge(alloc, &graph.tree, &solution.values, solution.flagged)
}

/// An input has 64 bits, and `x + 1` may be 2147483648: neither fits. After that `x` is at least -2147483647, since
/// the type's bounds hold there, so `x - 1` fits: by the value at its own point, and by none before it.
#[test]
fn steps_fit_by_their_points(rt: HostRuntime) -> Result<(), AllocError> {
    let alloc = rt.alloc();
    let want = [(0, false), (1, false), (2, true)];
    let boxes = judge_steps::<Boxes>(alloc)?;
    assert!(rt; boxes.verdicts.as_slice() == want.as_slice(), "boxes");
    assert!(rt; boxes.flagged.is_none(), "a flag over boxes");
    let octagons = judge_steps::<Octagon>(alloc)?;
    assert!(rt; octagons.verdicts.as_slice() == want.as_slice(), "octagons");
    assert!(rt; octagons.flagged.is_none(), "a flag over octagons");
    Ok(())
}
