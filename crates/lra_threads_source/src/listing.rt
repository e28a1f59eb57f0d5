//! What rounds find of threads, as one report lists it.

ghost use Rattle.std.specs.List.{flat_map, sum_by};
ghost use Rattle.std.specs.Prelude.{◌≡◌, ◌++◌, ◌<◌, ◌≤◌, ◌+◌, ◌^◌, ℕ, suc, length, map, take, drop, All, Some, IfOk};
ghost use Rattle.std.specs.Prelude.{option_map, slice_get, string_bytes, codes, List};
ghost use Rattle.lra_threads_source.specs.Crates.lra_resolution_spec.LiveNames.{globals_named};
ghost use Rattle.lra_threads_source.specs.Crates.lra_resolution_spec.Refuse.{greatest_points};
ghost use Rattle.lra_threads_source.specs.Crates.{lra_syntax.Labels.labels_of, lra_syntax.Views.tree_view};
ghost use Rattle.lra_report.specs.Report as report;
ghost use Rattle.lra_report.specs.View.{point_report_of, verdict_of};
ghost use Rattle.lra_report.specs.declared.verdict_kinds.VerdictKind.TheVariants.{Assertion, Fit};
ghost use Rattle.lra_threads_source.specs.Crates.lra_base.AccessVerdicts.{reported_view};
ghost use Rattle.lra_threads_source.specs.Crates.lra_report_build.AnalysisResults.{access_verdicts_at, verdict_at};
ghost use Rattle.lra_threads_source.specs.Crates.lra_threads_fixpoint.Found.{fixpoint_view};
ghost use Rattle.lra_threads_source.specs.Crates.lra_threads_fixpoint.Interference.{interval_at};
ghost use Rattle.lra_threads_source.specs.Listed.{accesses_alone, all_verdicts, all_writes, assertions_alone};
ghost use Rattle.lra_threads_source.specs.Listed.{number_in, point_in_thread, points_before, reported_points};
ghost use Rattle.lra_threads_source.specs.Listed.{one_by_one, thread_path, thread_sites, verdict_in_thread};
ghost use Rattle.lra_threads_source.specs.Listed.{reported_verdicts, reported_write, reported_writes, AreListedAlone};
ghost use Rattle.lra_threads_source.specs.Listed.{ShowsPoints, ShowsThreads};
ghost use Rattle.lra_threads_source.specs.Stages.{AreGraphsOf, AreOfGraphs, BeginsAtMain, CanFollow, IsFlagIn};
ghost use Rattle.lra_threads_source.specs.Stages.{IsJudgedIn, IsOfGraph, judged_alone, points_in};
ghost use Rattle.lra_threads_source.specs.ThreadsView.{threads_report_of, writes_of};

use crate::text::{ThreadsReport, Writes};
use lra_analyse_source::{
    Findings, Names, list_points, list_verdicts, names_of_globals, number_of, states_of,
};
use lra_report::{Labels, PointReport, TranslationUnit, Verdict};
use lra_threads_analysis::{FixpointRound, InlinedProgram, Interval, Intervals, ThreadResult};
use std::alloc::{AllocError, Global};

/// What a report lists of threads: their source's tree, the table of its labels, and the graph of each of them.
#[derive(Clone, Copy)]
pub struct ThreadsOutline<'a> {
    pub tree: &'a TranslationUnit,
    pub labels: &'a Labels,
    pub graphs: &'a [InlinedProgram],
}

/// A thread's number, from 1, and how many points the threads before it have.
#[derive(Clone, Copy)]
struct ThreadOffset {
    thread: u32,
    before: u32,
}

// numbers -----------------------------------------------------------------------------------------

/// How many points these threads have.
fn count_points(graphs: &[InlinedProgram]) -> u32
    requires { sum_by points_in graphs.now ≤ greatest_points }
    ensures { result ≡ sum_by points_in graphs.now }
{
    let mut count = 0;
    'graphs: for graph in graphs {
        count += graph.sites.len() as u32;
    }
    count
}

/// The offset of thread `k`, counted from 0: the thread's number, and how many points the threads before it have.
fn turn_of(graphs: &[InlinedProgram], k: usize) -> ThreadOffset
    requires few { sum_by points_in graphs.now ≤ greatest_points }
    requires there { k < length graphs.now }
    requires number { suc k < 2 ^ 32 }
    ensures thread { result.thread ≡ suc k }
    ensures before { result.before ≡ sum_by points_in (take k graphs.now) }
{
    ThreadOffset {
        thread: number_of(k),
        before: count_points(&graphs[..k]),
    }
}

/// The number of the first flagged point.
fn flag_of(graphs: &[InlinedProgram], flag: Option<(usize, usize)>) -> Option<u32>
    requires few { sum_by points_in graphs.now ≤ greatest_points }
    requires flag { (k q : ℕ) → flag ≡ Some (k, q) → IsFlagIn graphs.now (k, q) }
    ensures { result ≡ option_map (λ (f : ℕ × ℕ). sum_by points_in (take f.0 graphs.now) + suc f.1)
        flag }
{
    match flag {
        None => None,
        Some((thread, point)) => Some(count_points(&graphs[..thread]) + number_of(point)),
    }
}

/// What stands in a path after `main`.
fn behind_main(path: &str) -> &str
    requires { BeginsAtMain path.now }
    ensures { result.now ≡ drop (length (codes "main")) path.now }
{
    path.strip_prefix("main").unwrap_or("")
}

/// The path of a point of the thread of this number, by that which it has in the thread's own program.
fn thread_path(alloc: Global, thread: u32, path: &str) -> Result<String, AllocError>
    requires { BeginsAtMain path.now }
    ensures { IfOk result (λ shown. string_bytes shown ≡ thread_path thread path.now) }
{
    let rest = behind_main(path);
    format!(in alloc; "t{thread}{rest}")
}

// points ------------------------------------------------------------------------------------------

/// A point of a thread, which alone has this number and path.
fn point_in(
    alloc: Global,
    turn: ThreadOffset,
    point: PointReport,
) -> Result<PointReport, AllocError>
    requires { CanFollow turn.before point.number (string_bytes point.path) }
    ensures { IfOk result (λ p. point_report_of p ≡
        point_in_thread turn.before turn.thread (point_report_of point)) }
{
    let mut point = point;
    point.path = thread_path(alloc, turn.thread, point.path.as_str())?;
    point.number += turn.before;
    Ok(point)
}

/// Adds the points of a thread.
fn push_points(
    alloc: Global,
    turn: ThreadOffset,
    points: Vec<PointReport>,
    listed: &mut Vec<PointReport>,
) -> Result<(), AllocError>
    requires { All (λ p. CanFollow turn.before p.number (string_bytes p.path)) points.items }
    ensures { IfOk result (λ _. map point_report_of listed.new.items ≡
        map point_report_of listed.old.items ++
        map (point_in_thread turn.before turn.thread) (map point_report_of points.items)) }
{
    'points: for point in points {
        listed.push(point_in(alloc, turn, point)?)?;
    }
    Ok(())
}

/// Adds the points of thread `k`, each with what was found there.
fn push_thread(
    alloc: Global,
    outline: &ThreadsOutline<'_>,
    globals: &Names,
    k: usize,
    found: &ThreadResult,
    listed: &mut Vec<PointReport>,
) -> Result<(), AllocError>
    requires graphs { AreGraphsOf (tree_view outline.now.tree.now) outline.now.graphs.now }
    requires labels { outline.now.labels.now.labels ≡ labels_of (tree_view outline.now.tree.now) }
    requires globals { globals.now ≡ globals_named (tree_view outline.now.tree.now).parts }
    requires there { k < length outline.now.graphs.now }
    requires found { (graph : InlinedProgram) → slice_get outline.now.graphs.now k ≡ Some graph →
        IsOfGraph graph found.now }
    ensures { IfOk result (λ _. (points : List report.PointReport) ×
        AreListedAlone (tree_view outline.now.tree.now) k found.now points ×
        (map point_report_of listed.new.items ≡ map point_report_of listed.old.items ++
        reported_points (tree_view outline.now.tree.now) k points)) }
{
    let states = states_of(alloc, &found.noted.solution.values)?;
    let sites = outline.graphs[k].sites.as_slice();
    let points = list_points(alloc, outline.labels, globals, sites, states)?;
    push_points(alloc, turn_of(outline.graphs, k), points, listed)
}

/// The points of all threads.
fn list_threads(
    alloc: Global,
    outline: &ThreadsOutline<'_>,
    globals: &Names,
    found: &[ThreadResult],
) -> Result<Vec<PointReport>, AllocError>
    requires graphs { AreGraphsOf (tree_view outline.now.tree.now) outline.now.graphs.now }
    requires labels { outline.now.labels.now.labels ≡ labels_of (tree_view outline.now.tree.now) }
    requires globals { globals.now ≡ globals_named (tree_view outline.now.tree.now).parts }
    requires found { AreOfGraphs outline.now.graphs.now found.now }
    ensures { IfOk result (λ points. ShowsPoints (tree_view outline.now.tree.now) found.now
        (map point_report_of points.items)) }
{
    let mut listed = Vec::new(alloc);
    'threads: for (k, one) in found.iter().enumerate() {
        push_thread(alloc, outline, globals, k, one, &mut listed)?;
    }
    Ok(listed)
}

// verdicts ----------------------------------------------------------------------------------------

/// A verdict on a thread, which alone has this number and path.
fn verdict_in(alloc: Global, turn: ThreadOffset, verdict: Verdict) -> Result<Verdict, AllocError>
    requires { CanFollow turn.before verdict.number (string_bytes verdict.path) }
    ensures { IfOk result (λ v. verdict_of v ≡
        verdict_in_thread turn.before turn.thread (verdict_of verdict)) }
{
    let mut verdict = verdict;
    verdict.path = thread_path(alloc, turn.thread, verdict.path.as_str())?;
    verdict.number += turn.before;
    Ok(verdict)
}

/// Adds the verdicts on a thread.
fn push_verdicts(
    alloc: Global,
    turn: ThreadOffset,
    verdicts: Vec<Verdict>,
    listed: &mut Vec<Verdict>,
) -> Result<(), AllocError>
    requires { All (λ v. CanFollow turn.before v.number (string_bytes v.path)) verdicts.items }
    ensures { IfOk result (λ _. map verdict_of listed.new.items ≡ map verdict_of listed.old.items ++
        map (verdict_in_thread turn.before turn.thread) (map verdict_of verdicts.items)) }
{
    'verdicts: for verdict in verdicts {
        listed.push(verdict_in(alloc, turn, verdict)?)?;
    }
    Ok(())
}

/// Adds what is judged of thread `k`.
fn push_judged(
    alloc: Global,
    outline: &ThreadsOutline<'_>,
    k: usize,
    judged: &Findings<'_>,
    listed: &mut Vec<Verdict>,
) -> Result<(), AllocError>
    requires graphs { AreGraphsOf (tree_view outline.now.tree.now) outline.now.graphs.now }
    requires labels { outline.now.labels.now.labels ≡ labels_of (tree_view outline.now.tree.now) }
    requires there { k < length outline.now.graphs.now }
    requires judged { (graph : InlinedProgram) → slice_get outline.now.graphs.now k ≡ Some graph →
        IsJudgedIn graph judged.now }
    ensures { IfOk result (λ _. map verdict_of listed.new.items ≡ map verdict_of listed.old.items ++
        map (verdict_in_thread (points_before (tree_view outline.now.tree.now) k) (suc k))
        (judged_alone (tree_view outline.now.tree.now) k judged.now)) }
{
    let sites = outline.graphs[k].sites.as_slice();
    let verdicts = list_verdicts(alloc, outline.labels, sites, judged)?;
    push_verdicts(alloc, turn_of(outline.graphs, k), verdicts, listed)
}

/// Adds what is judged of all threads' assertions.
fn push_assertions(
    alloc: Global,
    outline: &ThreadsOutline<'_>,
    found: &[ThreadResult],
    listed: &mut Vec<Verdict>,
) -> Result<(), AllocError>
    requires graphs { AreGraphsOf (tree_view outline.now.tree.now) outline.now.graphs.now }
    requires labels { outline.now.labels.now.labels ≡ labels_of (tree_view outline.now.tree.now) }
    requires found { AreOfGraphs outline.now.graphs.now found.now }
    ensures { IfOk result (λ _. map verdict_of listed.new.items ≡ map verdict_of listed.old.items ++
        one_by_one (reported_verdicts (tree_view outline.now.tree.now) assertions_alone) 0
        found.now) }
{
    'threads: for (k, one) in found.iter().enumerate() {
        let judged = Findings {
            assertions: &one.noted.solution.verdicts,
            fitting: &[],
            inside: &[],
            flagged: None,
        };
        push_judged(alloc, outline, k, &judged, listed)?;
    }
    Ok(())
}

/// Adds what is judged of all threads' accesses.
fn push_accesses(
    alloc: Global,
    outline: &ThreadsOutline<'_>,
    found: &[ThreadResult],
    listed: &mut Vec<Verdict>,
) -> Result<(), AllocError>
    requires graphs { AreGraphsOf (tree_view outline.now.tree.now) outline.now.graphs.now }
    requires labels { outline.now.labels.now.labels ≡ labels_of (tree_view outline.now.tree.now) }
    requires found { AreOfGraphs outline.now.graphs.now found.now }
    ensures { IfOk result (λ _. map verdict_of listed.new.items ≡ map verdict_of listed.old.items ++
        one_by_one (reported_verdicts (tree_view outline.now.tree.now) accesses_alone) 0
        found.now) }
{
    'threads: for (k, one) in found.iter().enumerate() {
        let judged = Findings {
            assertions: &[],
            fitting: &[],
            inside: &one.inside.verdicts,
            flagged: None,
        };
        push_judged(alloc, outline, k, &judged, listed)?;
    }
    Ok(())
}

/// What is judged of all threads.
fn list_judged(
    alloc: Global,
    outline: &ThreadsOutline<'_>,
    found: &[ThreadResult],
) -> Result<Vec<Verdict>, AllocError>
    requires graphs { AreGraphsOf (tree_view outline.now.tree.now) outline.now.graphs.now }
    requires labels { outline.now.labels.now.labels ≡ labels_of (tree_view outline.now.tree.now) }
    requires found { AreOfGraphs outline.now.graphs.now found.now }
    ensures { IfOk result (λ vs. map verdict_of vs.items ≡
        all_verdicts (tree_view outline.now.tree.now) found.now) }
{
    let mut listed = Vec::new(alloc);
    push_assertions(alloc, outline, found, &mut listed)?;
    push_accesses(alloc, outline, found, &mut listed)?;
    Ok(listed)
}

// what is written ---------------------------------------------------------------------------------

/// Adds what the thread of this number gives the global of this name, if it gives it a value.
fn push_write(
    alloc: Global,
    thread: u32,
    name: &str,
    interval: Option<Interval>,
    listed: &mut Vec<Writes>,
) -> Result<(), AllocError>
    ensures { (k : ℕ) → thread ≡ suc k → IfOk result (λ _. map writes_of listed.new.items ≡
        map writes_of listed.old.items ++ reported_write k name.now interval) }
{
    match interval {
        None => Ok(()),
        Some(interval) => {
            let name = String::from_str(alloc, name)?;
            listed.push(Writes {
                thread,
                name,
                interval,
            })?;
            Ok(())
        }
    }
}

/// The interval of a global in a row; none if the row hasn't the global.
fn interval_of(row: &Intervals, global: usize) -> Option<Interval>
    ensures { result ≡ interval_at global row.now }
{
    match row.as_slice().get(global) {
        None => None,
        Some(interval) => *interval,
    }
}

/// Adds what the thread of this number gives the globals of these names.
fn push_row(
    alloc: Global,
    thread: u32,
    globals: &Names,
    row: &Intervals,
    listed: &mut Vec<Writes>,
) -> Result<(), AllocError>
    ensures { (k : ℕ) → thread ≡ suc k → IfOk result (λ _. map writes_of listed.new.items ≡
        map writes_of listed.old.items ++ reported_writes globals.now k row.now) }
{
    let names = globals.texts();
    'globals: for (global, name) in names.iter().enumerate() {
        push_write(
            alloc,
            thread,
            name.as_str(),
            interval_of(row, global),
            listed,
        )?;
    }
    Ok(())
}

/// What the threads give the globals of these names.
fn list_writes(
    alloc: Global,
    globals: &Names,
    table: &[Intervals],
) -> Result<Vec<Writes>, AllocError>
    requires { length table.now < 2 ^ 32 }
    ensures { IfOk result (λ all. map writes_of all.items ≡
        one_by_one (reported_writes globals.now) 0 table.now) }
{
    let mut listed = Vec::new(alloc);
    'threads: for (k, row) in table.iter().enumerate() {
        push_row(alloc, number_of(k), globals, row, &mut listed)?;
    }
    Ok(listed)
}

// the report --------------------------------------------------------------------------------------

/// The report of what rounds with this delay and so many narrowings ended with.
pub fn list(
    alloc: Global,
    outline: &ThreadsOutline<'_>,
    delay: u32,
    narrow: u32,
    end: &FixpointRound<ThreadResult>,
) -> Result<ThreadsReport, AllocError>
    requires graphs { AreGraphsOf (tree_view outline.now.tree.now) outline.now.graphs.now }
    requires labels { outline.now.labels.now.labels ≡ labels_of (tree_view outline.now.tree.now) }
    requires found { AreOfGraphs outline.now.graphs.now end.now.found.items }
    requires table { length end.now.table.items ≡ length outline.now.graphs.now }
    requires flag { (k q : ℕ) → end.now.flag ≡ Some (k, q) → IsFlagIn outline.now.graphs.now (k, q) }
    ensures shows { IfOk result (λ r. ShowsThreads (tree_view outline.now.tree.now)
        (fixpoint_view end.now) (threads_report_of r)) }
    ensures delay { IfOk result (λ r. r.delay ≡ delay) }
    ensures narrow { IfOk result (λ r. r.narrow ≡ narrow) }
{
    let globals = names_of_globals(alloc, outline.tree)?;
    let points = list_threads(alloc, outline, &globals, &end.found)?;
    let verdicts = list_judged(alloc, outline, &end.found)?;
    let writes = list_writes(alloc, &globals, &end.table)?;
    Ok(ThreadsReport {
        count: outline.graphs.len() as u32,
        delay,
        narrow,
        flagged: flag_of(outline.graphs, end.flag),
        points,
        verdicts,
        writes,
    })
}
