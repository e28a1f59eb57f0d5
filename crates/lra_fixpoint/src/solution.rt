//! What is found of a whole program.

ghost use Rattle.std.specs.Prelude.{◌≡◌, ◌≤◌, map, length, None, IfOk};
ghost use Rattle.lra_fixpoint.specs.Crates.lra_program.Assertions.{assertions_from};
ghost use Rattle.lra_fixpoint.specs.Crates.{lra_program.Program.Program, lra_program.WellFormed.AreGoodGlobals};
ghost use Rattle.lra_operations.specs.{Tree.Node, TreeViews.node_view, TreeViews.site_view};
ghost use Rattle.lra_fixpoint.specs.Crates.lra_analysis_spec.Analysis.{IsSolution};
ghost use Rattle.lra_fixpoint.specs.Crates.lra_analysis_spec.Instrumented.{instrumented};
ghost use Rattle.lra_fixpoint.specs.Crates.lra_analysis_spec.MovesOf.{first_values};
ghost use Rattle.lra_fixpoint.specs.Crates.lra_domain.declared.Exactness.{Exactness};
ghost use Rattle.lra_fixpoint.specs.Crates.{lra_analysis_spec.LiveLimit.most_live, lra_analysis_spec.Pass.noted};
ghost use Rattle.lra_fixpoint.specs.Crates.{lra_analysis_spec.Plan.Plan, lra_transfer.Changes.Does};
ghost use Rattle.lra_pass_results.specs.{Dimensions.TreeFits, Outcome.outcome_view};
ghost use Rattle.lra_fixpoint.specs.{Counts.AreCounted, Lives.PointsHave, Lives.AreWide, Lives.NotesHave};
ghost use Rattle.lra_fixpoint.specs.{Numbers.IsNumbered, Solved.IsSolved, Solved.IsSolvedUnder, Sound.HoldsInTree};
ghost use Rattle.lra_fixpoint.specs.{Tables.note_view, Tables.notes_in, UnderInterference.HoldsUnder};

use crate::pass::pass;
use crate::tables::{Note, number_held, tables_of, take_held};
use lra_interference_sound::{Domain, Interfere, NoInterference};
use lra_operations::{GlobalVariable, InlinedProgram, Site};
use lra_pass_results::{LoopCache, PassOutcome, Plan, append_globals, note};
use lra_pass_stack::Entering;
use std::alloc::{AllocError, Global};

/// What is found of a program: the value at each of its points, in the order of their numbers; of each assertion its
/// point's number and whether it is proved, in the same order; and the first point with a flagged operation. Points are
/// numbered from 0.
#[derive(Drop)]
pub struct Solution<D> {
    pub values: Vec<D>,
    pub verdicts: Vec<(usize, bool)>,
    pub flagged: Option<usize>,
}

/// What is found of a program among others: the same, and what its variables got, in the order in which that is
/// found.
#[derive(Drop)]
pub struct NotedSolution<D> {
    pub solution: Solution<D>,
    pub notes: Vec<Note<D>>,
}

/// What a pass found, in the order of the points, and the notes.
fn solution_of<D: Domain>(
    alloc: Global,
    sites: &[Site],
    outcome: PassOutcome<D>,
) -> Result<NotedSolution<D>, AllocError>
    requires { AreCounted (map site_view sites.now) (outcome_view outcome).entries }
    ensures solves { IfOk result
        (λ s. IsSolution D.abstraction (outcome_view outcome) s.solution.values.items
        s.solution.verdicts.items s.solution.flagged) }
    ensures noted { IfOk result (λ s. map note_view s.notes.items
        ≡ notes_in (outcome_view outcome).entries) }
    ensures points { IfOk result (λ s. length s.solution.values.items ≡ length sites.now) }
    ensures assertions { IfOk result (λ s. map (λ v. v.0) s.solution.verdicts.items ≡
        map (λ a. a.0) (assertions_from 0 (map site_view sites.now))) }
{
    let flagged = outcome.flag;
    let entries = outcome.found.into_entries();
    let tables = tables_of(alloc, sites.len(), entries)?;
    let solution = Solution {
        values: take_held(alloc, tables.values)?,
        verdicts: number_held(alloc, &tables.verdicts)?,
        flagged,
    };
    Ok(NotedSolution {
        solution,
        notes: tables.notes,
    })
}

/// The globals at their first values, and the first flagged point so far.
fn begin<D: Domain>(
    alloc: Global,
    plan: &Plan,
    globals: &[GlobalVariable],
) -> Result<(D, Option<usize>), AllocError>
    requires parts { 1 ≤ plan.now.parts }
    requires few { length globals.now ≤ most_live }
    ensures begins { IfOk result (λ r. (whole : D) × (e : Exactness) ×
        (D.abstraction.top 0 plan.now.parts whole × D.abstraction.well_formed whole) ×
        Does D.abstraction (first_values 0 globals.now) whole e r.0 × (r.1 ≡ noted 0 e None)) }
    ensures dims { IfOk result (λ r. D.abstraction.dims r.0 ≡ length globals.now) }
{
    let mut value = D::universe(alloc, 0, plan.parts())?;
    let exactness = append_globals(alloc, globals, &mut value)?;
    Ok((value, note(0, exactness, None)))
}

/// The iteration over a program's tree of operations among others, from its global variables at their first values:
/// what others may do is added where the tree says so.
pub fn analyse_with<D: Domain, F: Interfere<D>>(
    alloc: Global,
    plan: &Plan,
    globals: &[GlobalVariable],
    graph: &InlinedProgram,
    others: &F,
) -> Result<NotedSolution<D>, AllocError>
    requires parts { 1 ≤ plan.now.parts }
    requires few { length globals.now ≤ most_live }
    requires globals { AreGoodGlobals globals.now }
    requires fits { TreeFits (node_view graph.now.tree) (length globals.now) }
    requires numbered { IsNumbered (map site_view graph.now.sites.items)
        (node_view graph.now.tree) }
    ensures solved { IfOk result (λ s. (P : Program) → P.globals ≡ globals.now →
        IsSolvedUnder (F.interference others.now) D.abstraction plan.now P
        (node_view graph.now.tree)
        s.solution.values.items (map note_view s.notes.items) s.solution.verdicts.items
        s.solution.flagged) }
    ensures sound { IfOk result (λ s. (P : Program) (g : Node) → P.globals ≡ globals.now →
        node_view graph.now.tree ≡ instrumented (length P.globals) g →
        HoldsUnder (F.interference others.now)
        D.abstraction P g s.solution.values.items (map note_view s.notes.items)
        s.solution.verdicts.items) }
    ensures wide { IfOk result (λ s. PointsHave (map site_view graph.now.sites.items)
        (node_view graph.now.tree) (length globals.now) → AreWide D.abstraction
        (map site_view graph.now.sites.items) s.solution.values.items) }
    ensures notes { IfOk result (λ s. PointsHave (map site_view graph.now.sites.items)
        (node_view graph.now.tree) (length globals.now) →
        NotesHave D.abstraction (map note_view s.notes.items)) }
    ensures points { IfOk result (λ s. length s.solution.values.items
        ≡ length graph.now.sites.items) }
    ensures assertions { IfOk result (λ s. map (λ v. v.0) s.solution.verdicts.items ≡
        map (λ a. a.0) (assertions_from 0 (map site_view graph.now.sites.items))) }
{
    let (value, flag) = begin(alloc, plan, globals)?;
    let mut memory = LoopCache::nothing(alloc);
    let node = &graph.tree;
    let tree = Entering { node, value, flag };
    let outcome = pass(alloc, plan, others, &mut memory, tree)?;
    let solution = solution_of(alloc, &graph.sites, outcome)?;
    Ok(solution)
}

/// The iteration over a program's tree of operations, from its global variables at their first values.
pub fn analyse<D: Domain>(
    alloc: Global,
    plan: &Plan,
    globals: &[GlobalVariable],
    graph: &InlinedProgram,
) -> Result<Solution<D>, AllocError>
    requires parts { 1 ≤ plan.now.parts }
    requires few { length globals.now ≤ most_live }
    requires globals { AreGoodGlobals globals.now }
    requires fits { TreeFits (node_view graph.now.tree) (length globals.now) }
    requires numbered { IsNumbered (map site_view graph.now.sites.items) (node_view graph.now.tree) }
    ensures solved { IfOk result (λ s. (P : Program) → P.globals ≡ globals.now →
        IsSolved D.abstraction plan.now P (node_view graph.now.tree) s.values.items s.verdicts.items s.flagged) }
    ensures sound { IfOk result (λ s. (P : Program) → P.globals ≡ globals.now →
        HoldsInTree D.abstraction P (node_view graph.now.tree) s.values.items s.verdicts.items) }
    ensures wide { IfOk result (λ s. PointsHave (map site_view graph.now.sites.items) (node_view graph.now.tree)
        (length globals.now) → AreWide D.abstraction (map site_view graph.now.sites.items) s.values.items) }
    ensures points { IfOk result (λ s. length s.values.items ≡ length graph.now.sites.items) }
    ensures assertions { IfOk result (λ s. map (λ v. v.0) s.verdicts.items ≡
        map (λ a. a.0) (assertions_from 0 (map site_view graph.now.sites.items))) }
{
    let found = analyse_with(alloc, plan, globals, graph, &NoInterference)?;
    Ok(found.solution)
}
