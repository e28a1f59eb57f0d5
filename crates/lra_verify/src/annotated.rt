//! All paths of a program, from one source after the other, with what is said of its points.

ghost use Rattle.std.specs.List.{range_with_len};
ghost use Rattle.std.specs.Prelude.{◌≡◌, ◌≤◌, ◌<◌, ◌^◌, length, slice_get, IfOk, IfSome};
ghost use Rattle.lra_paths.specs.Paths.{live_of};
ghost use Rattle.lra_verify.specs.Crates.lra_certificate_spec.Certificates.{state_from, state_to};
ghost use Rattle.lra_verify.specs.Crates.lra_certificate_spec.Lines.{judged_in_turn, left_at};
ghost use Rattle.lra_verify.specs.Crates.lra_path_segments.Segments.{comes_to};
ghost use Rattle.lra_verify.specs.EdgeViews.{IsAnnotatedProgram, live_by, sites_in, states_in, paths_to_by, source_by};
ghost use Rattle.lra_verify.specs.EdgeViews.{sources_by};
ghost use Rattle.lra_certificate_lines.specs.{LineViews.IsJudgedAs, PathCheckViews.target_rows};

use crate::edges::{Edge, take_paths};
use lra_certificate_lines::{ConSys, VerifyError};
use lra_operations::Site;
use lra_paths::{Goal, Source};
use std::alloc::Global;

/// The points of a program with the rows that are said of them, none if nothing comes there; no row of its start;
/// and the segments from each source.
#[derive(Clone, Copy)]
pub struct AnnotatedProgram<'a> {
    pub sites: &'a [Site],
    pub states: &'a [Option<ConSys>],
    pub start: &'a ConSys,
    pub sources: &'a [Source],
}

impl AnnotatedProgram<'_> {
    /// What is said of a point.
    pub fn state(&self, point: usize) -> Option<&ConSys>
        requires ways { IsAnnotatedProgram self.now }
        requires point { point < length self.now.sites.now }
        ensures rows { target_rows result ≡ state_to (states_in self.now) (comes_to point) }
        ensures dims { IfSome result (λ r. r.now.dims ≡
            live_of (slice_get (sites_in self.now) point)) }
    {
        self.states[point].as_ref()
    }

    /// What is said of a source: of the start no row.
    pub fn from(&self, source: usize) -> Option<&ConSys>
        requires ways { IsAnnotatedProgram self.now }
        requires source { source ≤ length self.now.sites.now }
        ensures rows { target_rows result ≡ state_from (states_in self.now) source }
        ensures dims { IfSome result (λ r. r.now.dims ≡ live_by (sites_in self.now) source) }
        ensures live { IfSome result (λ r. r.now.dims < 2 ^ 31) }
    {
        match source.checked_sub(1) {
            None => Some(self.start),
            Some(point) => self.state(point),
        }
    }

    /// Where the next line begins after the paths from a source to a point.
    fn take_way(
        &self,
        alloc: Global,
        bytes: &[u8],
        at: usize,
        source: usize,
        point: usize,
    ) -> Result<usize, VerifyError>
        requires ways { IsAnnotatedProgram self.now }
        requires short { length bytes.now < 2 ^ 31 }
        requires place { at ≤ length bytes.now }
        requires source { source ≤ length self.now.sites.now }
        requires point { point < length self.now.sites.now }
        ensures told { IsJudgedAs (left_at bytes.now)
            (paths_to_by self.now source point (left_at bytes.now at)) result }
        ensures within { IfOk result (λ next. next ≤ length bytes.now) }
    {
        let paths = self.sources[source].paths_to(alloc, Goal::ComesTo(point))?;
        let edge = Edge {
            source,
            point,
            from: self.from(source),
            to: self.state(point),
        };
        take_paths(alloc, bytes, at, &edge, paths.as_slice())
    }

    /// Where the next line begins after the paths from a source to all points, in order.
    fn take_source(
        &self,
        alloc: Global,
        bytes: &[u8],
        at: usize,
        source: usize,
    ) -> Result<usize, VerifyError>
        requires ways { IsAnnotatedProgram self.now }
        requires short { length bytes.now < 2 ^ 31 }
        requires place { at ≤ length bytes.now }
        requires source { source ≤ length self.now.sites.now }
        ensures told { IsJudgedAs (left_at bytes.now)
            (source_by self.now source (left_at bytes.now at)) result }
        ensures within { IfOk result (λ next. next ≤ length bytes.now) }
    {
        let mut next = at;
        for point in 0..self.sites.len() {
            match self.take_way(alloc, bytes, next, source, point) {
                Ok(behind) => next = behind,
                Err(error) => return Err(error),
            }
        }
        Ok(next)
    }

    /// Where the next line begins after the paths from all sources, in order.
    pub fn take_sources(&self, alloc: Global, bytes: &[u8], at: usize) -> Result<usize, VerifyError>
        requires ways { IsAnnotatedProgram self.now }
        requires short { length bytes.now < 2 ^ 31 }
        requires place { at ≤ length bytes.now }
        ensures told { IsJudgedAs (left_at bytes.now)
            (sources_by self.now (left_at bytes.now at)) result }
        ensures within { IfOk result (λ next. next ≤ length bytes.now) }
    {
        let mut next = at;
        for source in 0..self.sources.len() {
            match self.take_source(alloc, bytes, next, source) {
                Ok(behind) => next = behind,
                Err(error) => return Err(error),
            }
        }
        Ok(next)
    }
}
