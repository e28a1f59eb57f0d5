//! Paths from one source to one point, with what is said of both.

ghost use Rattle.std.specs.Fmt.{decimal};
ghost use Rattle.std.specs.Prelude.{◌≡◌, ◌≤◌, ◌<◌, ◌++◌, ◌^◌, length, codes, string_bytes, Some, IfOk, IfSome};
ghost use Rattle.lra_verify.specs.Crates.lra_certificate_spec.Lines.{judged_in_turn, left_at};
ghost use Rattle.lra_verify.specs.Crates.lra_path_disjuncts.TableDisjuncts.{all_done, lists_done};
ghost use Rattle.lra_verify.specs.Crates.lra_systems.LinearSystems.{constraints};
ghost use Rattle.lra_verify.specs.EdgeViews.{dead_by, path_of};
ghost use Rattle.lra_certificate_lines.specs.LineViews.{IsJudgedAs};

use lra_certificate_lines::{Change, ConSys, PathCheck, VerifyError, take_line};
use std::alloc::{AllocError, Global};

/// A source and a point, with the rows that are said of them; none if nothing comes there.
#[derive(Clone, Copy)]
pub struct Edge<'a> {
    pub source: usize,
    pub point: usize,
    pub from: Option<&'a ConSys>,
    pub to: Option<&'a ConSys>,
}

/// The text of the line that begins a path.
fn edge_text(alloc: Global, source: usize, number: usize) -> Result<String, AllocError>
    ensures { IfOk result (λ text. string_bytes text ≡
        codes "edge " ++ (decimal source ++ (codes " " ++ decimal number))) }
{
    format!(in alloc; "edge {source} {number}")
}

/// Where the next line begins after a path: its own line, and what is said of it, unless nothing reaches its source.
fn take_path(
    alloc: Global,
    bytes: &[u8],
    at: usize,
    edge: &Edge<'_>,
    path: &[&Change],
) -> Result<usize, VerifyError>
    requires short { length bytes.now < 2 ^ 31 }
    requires place { at ≤ length bytes.now }
    requires point { edge.now.point < 2 ^ 31 }
    requires live { IfSome edge.now.from (λ r. r.now.dims < 2 ^ 31) }
    ensures told { IsJudgedAs (left_at bytes.now)
        (path_of edge.now (all_done path.now) (left_at bytes.now at)) result }
    ensures within { IfOk result (λ next. next ≤ length bytes.now) }
{
    let text = edge_text(alloc, edge.source, edge.point + 1)?;
    let next = take_line(bytes, at, text.as_bytes())?;
    match edge.from {
        None => Ok(next),
        Some(rows) => {
            let track = PathCheck::of(alloc, rows, path)?;
            track.show_target(alloc, bytes, next, edge.to)
        }
    }
}

/// Where the next line begins after the paths, in order.
pub fn take_paths(
    alloc: Global,
    bytes: &[u8],
    at: usize,
    edge: &Edge<'_>,
    paths: &[Vec<&Change>],
) -> Result<usize, VerifyError>
    requires short { length bytes.now < 2 ^ 31 }
    requires place { at ≤ length bytes.now }
    requires point { edge.now.point < 2 ^ 31 }
    requires live { IfSome edge.now.from (λ r. r.now.dims < 2 ^ 31) }
    ensures told { IsJudgedAs (left_at bytes.now)
        (judged_in_turn (path_of edge.now) (lists_done paths.now) (left_at bytes.now at)) result }
    ensures within { IfOk result (λ next. next ≤ length bytes.now) }
{
    let mut next = at;
    for path in paths.iter() {
        match take_path(alloc, bytes, next, edge, path.as_slice()) {
            Ok(behind) => next = behind,
            Err(error) => return Err(error),
        }
    }
    Ok(next)
}

/// Where the next line begins after a path along which nothing goes.
fn take_dead(
    alloc: Global,
    bytes: &[u8],
    at: usize,
    rows: &ConSys,
    path: &[&Change],
) -> Result<usize, VerifyError>
    requires short { length bytes.now < 2 ^ 31 }
    requires place { at ≤ length bytes.now }
    requires live { rows.now.dims < 2 ^ 31 }
    ensures told { IsJudgedAs (left_at bytes.now)
        (dead_by rows.now.dims (Some (constraints rows.now))
        (all_done path.now) (left_at bytes.now at)) result }
    ensures within { IfOk result (λ next. next ≤ length bytes.now) }
{
    let track = PathCheck::of(alloc, rows, path)?;
    track.show_dead(alloc, bytes, at)
}

/// Where the next line begins after the paths along which nothing goes, in order.
pub fn take_all_dead(
    alloc: Global,
    bytes: &[u8],
    at: usize,
    rows: &ConSys,
    paths: &[Vec<&Change>],
) -> Result<usize, VerifyError>
    requires short { length bytes.now < 2 ^ 31 }
    requires place { at ≤ length bytes.now }
    requires live { rows.now.dims < 2 ^ 31 }
    ensures told { IsJudgedAs (left_at bytes.now) (judged_in_turn
        (dead_by rows.now.dims (Some (constraints rows.now))) (lists_done paths.now)
        (left_at bytes.now at)) result }
    ensures within { IfOk result (λ next. next ≤ length bytes.now) }
{
    let mut next = at;
    for path in paths.iter() {
        match take_dead(alloc, bytes, next, rows, path.as_slice()) {
            Ok(behind) => next = behind,
            Err(error) => return Err(error),
        }
    }
    Ok(next)
}
