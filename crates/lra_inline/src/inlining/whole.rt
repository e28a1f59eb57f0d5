//! The tree of a whole program and its points: those of `main`'s items, and the point of its end.

ghost use Rattle.std.specs.Prelude.{◌≡◌, ◌≤◌, ℕ, List, [], ◌++◌, length, map, slice_get, IfOk, None, Some};
ghost use Rattle.lra_operations.specs.{Agree.IsInlinedTree, Agree.Agrees, CheckedOperations.AgreesOnAccesses};
ghost use Rattle.lra_inline.specs.Crates.lra_resolution_spec.Refuse.{greatest_live, limit_fault};
ghost use Rattle.lra_inline.specs.Crates.lra_syntax.Labels.{Labelled};
ghost use Rattle.lra_program.specs.Sites as points;
ghost use Rattle.lra_program.specs.Sites.{events_of, sites_of};
ghost use Rattle.lra_program.specs.{ProgramViews.program_view, WellFormed.IsWellFormed};
ghost use Rattle.lra_operations.specs.TreeViews.{node_view, site_view};
ghost use Rattle.lra_inline_steps.specs.Inlining.{points_in};
ghost use Rattle.lra_inline_steps.specs.Limits.{OnLimit, passed, refusal_of, stopped, add_points};

use super::inline_items;
use lra_inline_steps::{Around, Frame, GREATEST_CALLS, InlineError, add_point};
use lra_operations::forms::put_in_turn;
use lra_operations::{InlinedProgram, Node, Path, Site};
use lra_program::{Program, Receiver};
use std::alloc::Global;

/// The program's tree; its points come after those that are there, or it passes a limit. A tree without points before
/// it is the program's own.
fn write_program(
    alloc: Global,
    program: &Program,
    sites: &mut Vec<Site>,
) -> Result<Node, InlineError>
    requires { IsWellFormed (program_view program.now) }
    ensures walked { IfOk result (λ _. add_points (points_in sites.old) (events_of (program_view program.now))
        ≡ passed (points_in sites.new)) }
    ensures graph { IfOk result (λ g. points_in sites.old ≡ []
        → IsInlinedTree (program_view program.now) (node_view g)) }
    ensures limit { OnLimit result (λ x. add_points (points_in sites.old) (events_of (program_view program.now))
        ≡ stopped x) }
{
    let main = &program.functions[program.main];
    let path = Path::empty(alloc);
    let globals = program.globals.len();
    let frame = Frame {
        base: globals,
        live: globals,
        calls_left: GREATEST_CALLS,
        breaks: None,
        continues: None,
        receiver: Receiver::nobody().result_receiver(main.result_type),
        back: None,
    };
    let around = Around {
        alloc,
        program,
        path: &path,
        frame,
    };
    let body = inline_items(&around, &main.body.items, sites)?;
    let end = add_point(alloc, &path, main.end, body.live, false, sites)?;
    let tree = put_in_turn(alloc, body.node, Node::Point(end))?;
    Ok(tree)
}

/// The program's tree and its points, or the first limit that it passes.
pub fn build(alloc: Global, program: &Program) -> Result<InlinedProgram, InlineError>
    requires { IsWellFormed (program_view program.now) }
    ensures graph { IfOk result (λ g. IsInlinedTree (program_view program.now) (node_view g.tree)) }
    ensures agrees { IfOk result (λ g. Agrees (program_view program.now) (node_view g.tree)) }
    ensures accesses { IfOk result (λ g. AgreesOnAccesses (program_view program.now)
        (node_view g.tree)) }
    ensures sites { IfOk result (λ g. map site_view g.sites.items ≡ sites_of (program_view program.now)) }
    ensures few { IfOk result (λ _. (q : ℕ) (s : points.Site)
        → slice_get (sites_of (program_view program.now)) q ≡ Some s → s.live ≤ greatest_live) }
    ensures within { IfOk result (λ _. (ls : List Labelled)
        → limit_fault ls 0 (events_of (program_view program.now)) ≡ None) }
    ensures limit { OnLimit result (λ x. (ls : List Labelled)
        → limit_fault ls 0 (events_of (program_view program.now)) ≡ Some (refusal_of ls x)) }
{
    let mut sites = Vec::new(alloc);
    let tree = write_program(alloc, program, &mut sites)?;
    Ok(InlinedProgram { tree, sites })
}

/// As [`build`], if the program's points come after those of other programs: all of them count against the limit.
/// The points are written out once more for the tree, whose own points begin at 0; twice along a program is still
/// linear.
pub fn build_thread(
    alloc: Global,
    program: &Program,
    before: &mut Vec<Site>,
) -> Result<InlinedProgram, InlineError>
    requires { IsWellFormed (program_view program.now) }
    ensures graph { IfOk result (λ g. IsInlinedTree (program_view program.now) (node_view g.tree)) }
    ensures agrees { IfOk result (λ g. Agrees (program_view program.now) (node_view g.tree)) }
    ensures accesses { IfOk result (λ g. AgreesOnAccesses (program_view program.now)
        (node_view g.tree)) }
    ensures sites { IfOk result (λ g. map site_view g.sites.items ≡ sites_of (program_view program.now)) }
    ensures few { IfOk result (λ _. (q : ℕ) (s : points.Site)
        → slice_get (sites_of (program_view program.now)) q ≡ Some s → s.live ≤ greatest_live) }
    ensures behind { IfOk result (λ _. points_in before.new
        ≡ points_in before.old ++ sites_of (program_view program.now)) }
    ensures within { IfOk result (λ _. (ls : List Labelled)
        → limit_fault ls (length (points_in before.old)) (events_of (program_view program.now)) ≡ None) }
    ensures limit { OnLimit result (λ x. (ls : List Labelled)
        → limit_fault ls (length (points_in before.old)) (events_of (program_view program.now))
        ≡ Some (refusal_of ls x)) }
{
    write_program(alloc, program, before)?;
    build(alloc, program)
}
