//! Analyses of `long x = input(); if (..) assert(x >= 0); else assert(x >= 0);` and its end, if the condition is
//! `x >= 1` in parentheses of ever more levels; and of the same with `int x`.

ghost use Rattle.std.specs.Prelude.{◌≡◌, map, IfOk};
ghost use Rattle.lra_operations.specs.Tree as graph;
ghost use Rattle.lra_program.specs.ProgramViews.{cond_view};
ghost use Rattle.lra_operations.specs.TreeViews.{op_view, node_view, site_view};
ghost use Rattle.lra_tests_analyses.specs.Crates.lra_fixpoint.Numbers.{IsNumbered};
ghost use Rattle.lra_tests_analyses.specs.Crates.lra_pass_results.Dimensions.{TreeFits};
ghost use Rattle.lra_tests_analyses.specs.Sample.{sample_asserts};

use lra_octagon::{Boxes, Domain, Octagon};
use lra_operations::{InlinedProgram, Node, Op, Path, Site};
use lra_program::{Comparison, Cond, Expr, NumberType, Receiver, Slot, Variable};
use lra_threads_instrument::{Plan, Solution, analyse};
use std::alloc::{AllocError, Global};

/// `x >= bound`, of an `x` of this type.
fn at_least(number_type: NumberType, bound: u64) -> Cond {
    Cond::Compare(
        Comparison::AtLeast,
        Expr::Read(Variable {
            slot: Slot::Local(0),
            number_type,
        }),
        Expr::Literal(NumberType::Int, bound),
    )
}

/// `x >= 1`, after which so many levels of parentheses say `|| x >= 1` and `&& x >= 1` in turn.
fn nested(alloc: Global, number_type: NumberType, levels: u32) -> Result<Cond, AllocError> {
    let mut condition = at_least(number_type, 1);
    for level in 0..levels {
        let mut others = Vec::new(alloc);
        others.push(at_least(number_type, 1))?;
        let first = Box::new(alloc, condition)?;
        condition = if level % 2 == 0 {
            Cond::Any(first, others)
        } else {
            Cond::All(first, others)
        };
    }
    Ok(condition)
}

/// The one, then the other.
fn in_turn(alloc: Global, first: Node, second: Node) -> Result<Node, AllocError>
    ensures { IfOk result (λ g. node_view g ≡ graph.seq (node_view first) (node_view second)) }
{
    let mut before = Vec::new(alloc);
    before.push(first)?;
    Ok(Node::Seq(before, Box::new(alloc, second)?))
}

/// The point, then the tree.
fn behind_point(alloc: Global, point: usize, node: Node) -> Result<Node, AllocError>
    ensures { IfOk result (λ g. node_view g ≡ graph.seq (graph.point point) (node_view node)) }
{
    in_turn(alloc, Node::Point(point), node)
}

/// The tree, then the point.
fn before_point(alloc: Global, node: Node, point: usize) -> Result<Node, AllocError>
    ensures { IfOk result (λ g. node_view g ≡ graph.seq (node_view node) (graph.point point)) }
{
    in_turn(alloc, node, Node::Point(point))
}

/// The operation at the first point, then the tree.
fn behind(alloc: Global, op: Op, node: Node) -> Result<Node, AllocError>
    ensures { IfOk result (λ g. node_view g ≡ graph.seq (graph.act 0 (op_view op)) (node_view node)) }
{
    in_turn(alloc, Node::Act(0, op), node)
}

/// The point and its assertion.
fn assertion(alloc: Global, point: usize, condition: Cond) -> Result<Node, AllocError>
    ensures { IfOk result (λ g. node_view g ≡ graph.seq (graph.point point)
        (graph.check point 0 (cond_view condition))) }
{
    behind_point(alloc, point, Node::Check(point, 0, condition))
}

/// The second point and its branches.
fn choice(alloc: Global, condition: Cond, yes: Node, no: Node) -> Result<Node, AllocError>
    ensures { IfOk result (λ g. node_view g ≡ graph.seq (graph.point 1)
        (graph.choose 1 0 (cond_view condition) (node_view yes) (node_view no))) }
{
    let branches = Node::Choose(1, 0, condition, Box::new(alloc, yes)?, Box::new(alloc, no)?);
    behind_point(alloc, 1, branches)
}

/// The points: the third and the fourth are assertions.
fn sites(alloc: Global) -> Result<Vec<Site>, AllocError>
    ensures { IfOk result (λ sites. map (λ s. s.asserts) sites.items ≡ sample_asserts) }
{
    let mut sites = Vec::new(alloc);
    'sites: for asserts in &[false, false, true, true, false] {
        sites.push(Site {
            path: Path::empty(alloc),
            label: 1,
            live: 1,
            asserts: *asserts,
        })?;
    }
    Ok(sites)
}

/// The tree and its points, of an `x` of this type.
fn sample(
    alloc: Global,
    number_type: NumberType,
    condition: Cond,
) -> Result<InlinedProgram, AllocError>
    ensures fits { IfOk result (λ g. TreeFits (node_view g.tree) 0) }
    ensures numbered { IfOk result (λ g. IsNumbered (map site_view g.sites.items) (node_view g.tree)) }
{
    let yes = assertion(alloc, 2, at_least(number_type, 0))?;
    let no = assertion(alloc, 3, at_least(number_type, 0))?;
    let branches = choice(alloc, condition, yes, no)?;
    let rest = before_point(alloc, branches, 4)?;
    let receiver = Receiver::variable(0, number_type);
    let given = behind(alloc, Op::StoreValue(0, receiver, Expr::Input), rest)?;
    let declared = behind(alloc, Op::Append(number_type), given)?;
    let tree = behind_point(alloc, 0, declared)?;
    let sites = sites(alloc)?;
    Ok(InlinedProgram { tree, sites })
}

/// The rows of the value's parts over one variable, one after the other.
fn rows_of<D: Domain>(alloc: Global, value: &D) -> Result<Vec<[i128; 2]>, AllocError> {
    let mut rows = Vec::new(alloc);
    for part in &value.parts(alloc)? {
        for row in part.rows() {
            if row.width() == 2 {
                rows.push([row.get(0), row.get(1)])?;
            }
        }
    }
    Ok(rows)
}

/// What is found over a domain, of an `x` of this type.
fn solve<D: Domain>(
    alloc: Global,
    number_type: NumberType,
    levels: u32,
) -> Result<Solution<D>, AllocError> {
    let plan = Plan::of(alloc, lra_options::DEFAULT_OPTIONS, &[])?;
    let condition = nested(alloc, number_type, levels)?;
    let graph = sample(alloc, number_type, condition)?;
    let solution = analyse::<D>(alloc, &plan, &[], &graph)?;
    Ok(solution)
}

/// Whether the points have these rows, the first assertion alone is proved, and nothing is flagged.
fn tells<D: Domain>(
    alloc: Global,
    solution: &Solution<D>,
    want: &[&[[i128; 2]]],
) -> Result<bool, AllocError> {
    let mut found = Vec::new(alloc);
    for value in &solution.values {
        found.push(rows_of(alloc, value)?)?;
    }
    let same = found
        .iter()
        .map(|rows| rows.as_slice())
        .eq(want.iter().copied());
    let judged = solution.verdicts.as_slice() == [(2, true), (3, false)].as_slice();
    Ok(same && judged && solution.flagged.is_none())
}

/// Where x >= 1 the assertion x >= 0 is proved, and elsewhere it isn't; x >= 0 holds at the end. Sixty-three levels
/// take the time of sixty-three comparisons: were each side of a condition made by itself, nobody would wait for it.
#[test]
fn levels_of_conditions(rt: HostRuntime) -> Result<(), AllocError> {
    let alloc = rt.alloc();
    let want: [&[[i128; 2]]; 5] = [&[], &[], &[[-1, 1]], &[[0, -1]], &[[0, 1]]];
    for levels in &[0, 1, 63] {
        let solution = solve::<Boxes>(alloc, NumberType::Long, *levels)?;
        assert!(rt;
            tells(alloc, &solution, want.as_slice())?,
            "{levels} levels"
        );
    }
    Ok(())
}

/// An `int` lies within 32 bits after its declaration and after each value that it gets.
#[test]
fn ints_lie_within_32_bits(rt: HostRuntime) -> Result<(), AllocError> {
    let alloc = rt.alloc();
    let want: [&[[i128; 2]]; 5] = [
        &[],
        &[[2_147_483_648, 1], [2_147_483_647, -1]],
        &[[-1, 1], [2_147_483_647, -1]],
        &[[2_147_483_648, 1], [0, -1]],
        &[[0, 1], [2_147_483_647, -1]],
    ];
    let boxes = solve::<Boxes>(alloc, NumberType::Int, 0)?;
    assert!(rt; tells(alloc, &boxes, want.as_slice())?, "boxes");
    let octagons = solve::<Octagon>(alloc, NumberType::Int, 0)?;
    assert!(rt; tells(alloc, &octagons, want.as_slice())?, "octagons");
    Ok(())
}
