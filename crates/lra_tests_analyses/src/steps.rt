//! `int x = input();`, two operations at points of their own, and its end.

ghost use Rattle.std.specs.Prelude.{◌≡◌, map, IfOk};
ghost use Rattle.lra_operations.specs.TreeViews.{node_view, op_view, site_view};
ghost use Rattle.lra_program.specs.ProgramViews.{expr_view};
ghost use Rattle.lra_tests_analyses.specs.Steps.{acted, steps_sites, plain_site, tree_of, x};

use lra_operations::forms::{declare, put_in_turn, put_point};
use lra_operations::{InlinedProgram, Node, Op, Path, Site};
use lra_program::{Expr, NumberType, Receiver, Slot, Variable};
use std::alloc::{AllocError, Global};

/// The variable.
pub fn read_x() -> Expr
    ensures { expr_view result ≡ x }
{
    Expr::Read(Variable {
        slot: Slot::Local(0),
        number_type: NumberType::Int,
    })
}

/// The point, and the operation there.
fn act(alloc: Global, point: usize, op: Op) -> Result<Node, AllocError>
    ensures { IfOk result (λ g. node_view g ≡ acted point (op_view op)) }
{
    put_point(alloc, point, Node::Act(point, op))
}

/// A point with so many variables.
fn site(alloc: Global, live: usize) -> Site
    ensures { site_view result ≡ plain_site live }
{
    Site {
        path: Path::empty(alloc),
        label: 1,
        live,
        asserts: false,
    }
}

/// The points: none of them is an assertion.
fn sites(alloc: Global) -> Result<Vec<Site>, AllocError>
    ensures { IfOk result (λ sites. map site_view sites.items ≡ steps_sites) }
{
    let mut sites = Vec::new(alloc);
    sites.push(site(alloc, 0))?;
    sites.push(site(alloc, 1))?;
    sites.push(site(alloc, 1))?;
    sites.push(site(alloc, 1))?;
    Ok(sites)
}

/// The tree with these operations, and its points.
pub fn steps(alloc: Global, one: Op, two: Op) -> Result<InlinedProgram, AllocError>
    ensures tree { IfOk result (λ g. node_view g.tree ≡ tree_of (op_view one) (op_view two)) }
    ensures sites { IfOk result (λ g. map site_view g.sites.items ≡ steps_sites) }
{
    let receiver = Receiver::variable(0, NumberType::Int);
    let given = Node::Act(0, Op::StoreValue(0, receiver, Expr::Input));
    let declared = declare(alloc, 0, NumberType::Int, given)?;
    let second = act(alloc, 2, two)?;
    let behind = put_in_turn(alloc, second, Node::Point(3))?;
    let first = act(alloc, 1, one)?;
    let rest = put_in_turn(alloc, first, behind)?;
    let tree = put_in_turn(alloc, declared, rest)?;
    Ok(InlinedProgram {
        tree,
        sites: sites(alloc)?,
    })
}
