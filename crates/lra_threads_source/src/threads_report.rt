//! From the bytes of a source of several threads to what is found of them.

ghost use Rattle.std.specs.List.{AllZip};
ghost use Rattle.std.specs.Prelude.{◌≡◌, ◌<◌, ◌+◌, ◌^◌, ℕ, List, length, IfOk};
ghost use Rattle.lra_threads_source.specs.Crates.lra_resolution_spec.EntryPoint.{at_threads};
ghost use Rattle.lra_threads_source.specs.Crates.lra_resolution_spec.Refuse.{Refuse};
ghost use Rattle.lra_threads_source.specs.Crates.{lra_base.Refused.IfRefused, lra_syntax.Grammar.Spells};
ghost use Rattle.lra_threads_source.specs.Stages.{AreThreadsInstrumented, IsInstrumented, IsReadOf};
ghost use Rattle.lra_threads_source.specs.ThreadsReports as threaded;
ghost use Rattle.lra_threads_source.specs.{ThreadsReports.IsThreadsReportOf, ThreadsView.threads_report_of};

use crate::listing::{ThreadsOutline, list};
use crate::text::ThreadsReport;
use lra_analyse_source::{AcceptedThreads, Domain, Plan, SourceError, read_threads};
use lra_report::{Options, default_options};
use lra_threads_analysis::{InlinedProgram, analyse_threads, instrument_program, threads_hold};
use std::alloc::{AllocError, Global};
use std::mem;

/// Boxes of one part, delayed and narrowed so often.
fn threads_options(delay: u32, narrow: u32) -> Options
    ensures { result ≡ threaded.threads_options delay narrow }
{
    Options {
        domain: Domain::Box,
        delay,
        narrow,
        ..default_options()
    }
}

/// The graphs with what others do written into their trees, over so many globals.
fn open_graphs(
    alloc: Global,
    globals: usize,
    graphs: Vec<InlinedProgram>,
) -> Result<Vec<InlinedProgram>, AllocError>
    ensures { IfOk result (λ opened. AllZip (IsInstrumented globals) graphs.items opened.items) }
{
    let mut opened = Vec::new(alloc);
    'graphs: for graph in graphs {
        opened.push(instrument_program(alloc, globals, graph)?)?;
    }
    Ok(opened)
}

/// What was read, with what others do written into the trees.
fn open_threads(alloc: Global, front: AcceptedThreads) -> Result<AcceptedThreads, AllocError>
    ensures { IfOk result (λ f. AreThreadsInstrumented front f) }
{
    let mut front = front;
    let globals = front.resolution.program.globals.len();
    let read = mem::replace(&mut front.graphs, Vec::new(alloc));
    front.graphs = open_graphs(alloc, globals, read)?;
    Ok(front)
}

/// The report of what rounds with this plan find of the threads of what was read.
fn report_threads(
    alloc: Global,
    plan: &Plan,
    delay: u32,
    narrow: u32,
    front: AcceptedThreads,
) -> Result<ThreadsReport, AllocError>
    requires planned { plan.now ≡ threaded.threads_plan delay narrow front.constants.items }
    requires read { (source : List ℕ) × IsReadOf source front }
    ensures { IfOk result (λ r. (source : List ℕ) → IsReadOf source front →
        IsThreadsReportOf delay narrow source (threads_report_of r)) }
{
    threads_hold();
    let opened = open_threads(alloc, front)?;
    let globals = opened.resolution.program.globals.as_slice();
    let graphs = opened.graphs.as_slice();
    let end = analyse_threads(alloc, plan, globals, graphs)?;
    let outline = ThreadsOutline {
        tree: &opened.tree,
        labels: &opened.resolution.labels,
        graphs,
    };
    let report = list(alloc, &outline, delay, narrow, &end)?;
    Ok(report)
}

/// What rounds over boxes, with this delay and so many narrowings, find of the threads of a source, or its one refusal;
/// memory may run out. A source past the limit of 65,536 bytes is refused by its first bytes, so that no more than
/// one byte past the limit need be given.
pub fn threads_source(
    alloc: Global,
    delay: u32,
    narrow: u32,
    bytes: &[u8],
) -> Result<ThreadsReport, SourceError>
    requires { length bytes.now + 1 < 2 ^ 32 }
    ensures answered { IfOk result
        (λ r. IsThreadsReportOf delay narrow bytes.now (threads_report_of r)) }
    ensures refused { IfRefused result (λ r. Refuse at_threads Spells bytes.now r.cause r.place) }
{
    let front = read_threads(alloc, bytes)?;
    let plan = Plan::of(alloc, threads_options(delay, narrow), &front.constants)?;
    let report = report_threads(alloc, &plan, delay, narrow, front)?;
    Ok(report)
}
