//! What is judged to be inside in `int x = input(); assume(x >= 0 && x < 3 && a[x] > a[a[0]]); a[x] = a[3];` and its
//! end, with an array `a` of 3, by the values of its analyses.

ghost use Rattle.std.specs.Prelude.{◌≡◌, map, true, IfOk};
ghost use Rattle.lra_program.specs.{ProgramViews.cond_view, ProgramViews.expr_view, Step.test};
ghost use Rattle.lra_operations.specs.TreeViews.{node_view, op_view, site_view};
ghost use Rattle.lra_tests_analyses.specs.Steps.{a, a_at, accesses_tree, is_inside, place, steps_sites, written};

use crate::steps::{read_x, steps};
use lra_bounds_checks::{BoundsVerdicts, judge_accesses};
use lra_octagon::{Boxes, Domain, Octagon};
use lra_operations::{InlinedProgram, Op};
use lra_program::{Array, Comparison, Cond, Element, Expr, NumberType, Place};
use lra_threads_instrument::{Plan, analyse};
use std::alloc::{AllocError, Global};

/// A place in the first line.
fn place(column: u32) -> Place
    ensures { result ≡ place column }
{
    Place { line: 1, column }
}

/// The array.
fn array() -> Array
    ensures { result ≡ a }
{
    Array {
        declared: place(1),
        length: 3,
        number_type: NumberType::Int,
    }
}

/// One of its elements, named at this column.
fn element_at(alloc: Global, column: u32, index: Expr) -> Result<Expr, AllocError>
    ensures { IfOk result (λ e. expr_view e ≡ a_at column (expr_view index)) }
{
    Ok(Expr::Element(array(), place(column), Box::new(alloc, index)?))
}

/// The condition.
fn condition(alloc: Global) -> Result<Cond, AllocError>
    ensures { IfOk result (λ c. cond_view c ≡ is_inside) }
{
    let left = element_at(alloc, 10, read_x())?;
    let inner = element_at(alloc, 22, Expr::Literal(NumberType::Int, 0))?;
    let right = element_at(alloc, 20, inner)?;
    let zero = Expr::Literal(NumberType::Int, 0);
    let three = Expr::Literal(NumberType::Int, 3);
    let first = Cond::Compare(Comparison::AtLeast, read_x(), zero);
    let mut rest = Vec::new(alloc);
    rest.push(Cond::Compare(Comparison::Below, read_x(), three))?;
    rest.push(Cond::Compare(Comparison::Above, left, right))?;
    Ok(Cond::All(Box::new(alloc, first)?, rest))
}

/// `a[x] = a[3]`.
fn write(alloc: Global) -> Result<Op, AllocError>
    ensures { IfOk result (λ op. op_view op ≡ written) }
{
    let given = element_at(alloc, 40, Expr::Literal(NumberType::Int, 3))?;
    let element = Element {
        array: array(),
        place: place(30),
        index: read_x(),
    };
    Ok(Op::StoreElement(0, element, given))
}

/// The tree and its points.
fn access(alloc: Global) -> Result<InlinedProgram, AllocError>
    ensures tree { IfOk result (λ g. node_view g.tree ≡ accesses_tree) }
    ensures sites { IfOk result (λ g. map site_view g.sites.items ≡ steps_sites) }
{
    let condition = condition(alloc)?;
    let write = write(alloc)?;
    steps(alloc, Op::Test(0, condition, true), write)
}

/// What is judged of it, by the values of its analysis over a domain.
fn judge_tree<D: Domain>(alloc: Global) -> Result<BoundsVerdicts, AllocError> {
    let plan = Plan::of(alloc, lra_options::DEFAULT_OPTIONS, &[])?;
    let graph = access(alloc)?;
    let solution = analyse::<D>(alloc, &plan, &[], &graph)?;
    judge_accesses(alloc, &graph.tree, &solution.values, solution.flagged)
}

/// Whether this is reported, and nothing is flagged.
fn tells(inside: &BoundsVerdicts, want: &[(usize, &[(Place, bool)])]) -> bool {
    let told = inside
        .verdicts
        .iter()
        .map(|verdict| (verdict.0, verdict.1.as_slice()));
    told.eq(want.iter().copied()) && inside.flagged.is_none()
}

/// On the right of `&&` `x` is from 0 to 2, so `a[x]` is inside, and `a[0]` is; what an element holds isn't followed.
/// After the condition `a[x]` is inside too; 3 is no index of an array of 3.
#[test]
fn accesses_are_inside_by_their_points(rt: HostRuntime) -> Result<(), AllocError> {
    let alloc = rt.alloc();
    let tested = [(place(10), true), (place(22), true), (place(20), false)];
    let written = [(place(30), true), (place(40), false)];
    let want: [(usize, &[(Place, bool)]); 2] = [(1, tested.as_slice()), (2, written.as_slice())];
    let boxes = judge_tree::<Boxes>(alloc)?;
    assert!(rt; tells(&boxes, want.as_slice()), "boxes");
    let octagons = judge_tree::<Octagon>(alloc)?;
    assert!(rt; tells(&octagons, want.as_slice()), "octagons");
    Ok(())
}
