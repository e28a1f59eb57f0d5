//! Threads as the graphs of their operations: each is iterated over among what the others give.

ghost use Rattle.std.specs.Prelude.{◌≡◌, List, length, IfOk};
ghost use Rattle.lra_threads_fixpoint.specs.{Found.fixpoint_view, Rounds.AllRounds};
ghost use Rattle.lra_threads_analysis.specs.Crates.{lra_operations.Tree.Node, lra_program.Program.Program};
ghost use Rattle.lra_threads_analysis.specs.Found.{thread_finding, AreInstrumented, AreReady, IsThreadResultOf};
ghost use Rattle.lra_threads_analysis.specs.{Analysed.IsAnalysedOf, Holding.AllHold, Holding.AreFlagged};

use crate::found::ThreadResult;
use lra_bounds_checks::judge_accesses;
use lra_threads_fixpoint::{FixpointRound, Intervals, Threads, find_fixpoint};
use lra_threads_instrument::{GlobalVariable, InlinedProgram, Plan, analyse_with};
use std::alloc::{AllocError, Global};

/// The graphs of threads over the same globals, and how they are iterated over. Their trees have been instrumented: in
/// them others act, and what globals get is noted.
#[derive(Clone, Copy)]
pub struct InlinedThreads<'a> {
    pub plan: &'a Plan,
    pub globals: &'a [GlobalVariable],
    pub graphs: &'a [InlinedProgram],
}

impl Threads for InlinedThreads<'_> {
    type Found = ThreadResult;

    ghost threads = { λ t. length t.graphs.now };

    ghost shared = { λ t. length t.globals.now };

    ghost ready = { λ t. AreReady t.plan.now t.globals.now t.graphs.now };

    ghost finding = { thread_finding };

    ghost finds = { λ t k o found. IsAnalysedOf t.plan.now t.globals.now t.graphs.now k o found };

    fn count(&self) -> usize {
        self.graphs.len()
    }

    fn globals(&self) -> usize {
        self.globals.len()
    }

    fn analyse(
        &self,
        alloc: Global,
        k: usize,
        told: &Intervals,
    ) -> Result<ThreadResult, AllocError> {
        let graph = &self.graphs[k];
        let noted = analyse_with(alloc, self.plan, self.globals, graph, told)?;
        let solution = &noted.solution;
        let inside = judge_accesses(alloc, &graph.tree, &solution.values, solution.flagged)?;
        Ok(ThreadResult { noted, inside })
    }

    fn write(&self, alloc: Global, found: &ThreadResult) -> Result<Intervals, AllocError> {
        let mut row = Intervals::none(alloc, self.globals.len())?;
        'notes: for note in &found.noted.notes {
            row.take(note.variable, &note.value);
        }
        Ok(row)
    }

    fn flagged(&self, found: &ThreadResult) -> Option<usize> {
        found.inside.flagged
    }
}

/// The rounds of threads, until nothing is written that wasn't reported.
pub fn analyse_threads(
    alloc: Global,
    plan: &Plan,
    globals: &[GlobalVariable],
    graphs: &[InlinedProgram],
) -> Result<FixpointRound<ThreadResult>, AllocError>
    requires { AreReady plan.now globals.now graphs.now }
    ensures rounds { IfOk result (λ end. (P : Program) (trees : List Node) →
        P.globals ≡ globals.now → AreInstrumented (length P.globals) trees graphs.now →
        AllRounds thread_finding (length P.globals) (IsThreadResultOf plan.now P trees)
        (length trees) (fixpoint_view end)) }
    ensures holds { IfOk result (λ end. AllHold globals.now graphs.now (fixpoint_view end)) }
    ensures flagged { IfOk result (λ end. (P : Program) (trees : List Node) →
        P.globals ≡ globals.now → AreInstrumented (length P.globals) trees graphs.now →
        AreFlagged plan.now P trees (fixpoint_view end)) }
{
    let threads = InlinedThreads {
        plan,
        globals,
        graphs,
    };
    let end = find_fixpoint(alloc, &threads)?;
    Ok(end)
}
