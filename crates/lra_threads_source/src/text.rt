//! What is written of several threads.

ghost use Rattle.std.specs.Prelude.{◌≡◌, ◌++◌, count_by, map, IfOk, OnOk, string_bytes};
ghost use Rattle.std.specs.{Fmt.decimal, List.flat_map};
ghost use Rattle.lra_report.specs.{ReportText.flag_text, ReportText.is_unknown, View.verdict_of};
ghost use Rattle.lra_threads_source.specs.ThreadsText as told;
ghost use Rattle.lra_threads_source.specs.ThreadsView.{threads_report_of, writes_of};

use lra_report::{
    PointReport, Verdict, count_unknown, push_counts, push_flag, push_points, push_verdicts,
};
use lra_threads_analysis::Interval;
use std::alloc::{AllocError, Global};
use std::fmt::Write;

/// The values that the thread of this number, from 1, gives the global variable of this name, lie in the interval.
pub struct Writes {
    pub thread: u32,
    pub name: String,
    pub interval: Interval,
}

impl Drop for Writes {
    fn drop(self) {
        let Writes {
            thread: _,
            name: _,
            interval: _,
        } = self;
    }
}

/// Of so many threads, analysed with these options: all their points, what is judged of them, and what they write.
/// `flagged` is the number of the point to which the first flagged operation belongs.
pub struct ThreadsReport {
    pub count: u32,
    pub delay: u32,
    pub narrow: u32,
    pub flagged: Option<u32>,
    pub points: Vec<PointReport>,
    pub verdicts: Vec<Verdict>,
    pub writes: Vec<Writes>,
}

impl Drop for ThreadsReport {
    fn drop(self) {
        let ThreadsReport {
            count: _,
            delay: _,
            narrow: _,
            flagged: _,
            points: _,
            verdicts: _,
            writes: _,
        } = self;
    }
}

impl ThreadsReport {
    /// How many verdicts are unknown.
    pub fn unknown_count(&self) -> usize
        ensures { result ≡ count_by (λ v. is_unknown (verdict_of v)) self.now.verdicts.items }
    {
        count_unknown(&self.verdicts)
    }
}

/// Appends a number after these words.
fn push_number(text: &mut String, words: &str, number: u32) -> Result<(), AllocError>
    ensures { OnOk result (string_bytes text.new ≡ string_bytes text.old ++
        (words.now ++ decimal number)) }
{
    write!(text, "{words}{number}")
}

/// Appends the first line.
fn push_threads(text: &mut String, count: u32, delay: u32, narrow: u32) -> Result<(), AllocError>
    ensures { OnOk result (string_bytes text.new ≡ string_bytes text.old ++
        told.threads_line count delay narrow) }
{
    push_number(text, "threads box count ", count)?;
    push_number(text, " delay ", delay)?;
    push_number(text, " narrow ", narrow)?;
    text.push_str("\n")
}

/// Appends a bound, or that there is none.
fn push_bound(text: &mut String, bound: Option<i128>) -> Result<(), AllocError>
    ensures { OnOk result (string_bytes text.new ≡ string_bytes text.old ++ told.bound_text bound) }
{
    match bound {
        None => text.push_str("none"),
        Some(number) => write!(text, "{number}"),
    }
}

/// Appends the line of what a thread writes to a variable.
fn push_line(text: &mut String, writes: &Writes) -> Result<(), AllocError>
    ensures { OnOk result (string_bytes text.new ≡ string_bytes text.old ++
        told.writes_line (writes_of writes.now)) }
{
    let thread = writes.thread;
    let name = writes.name.as_str();
    write!(text, "writes t{thread} {name} ")?;
    push_bound(text, writes.interval.low)?;
    text.push_str(" ")?;
    push_bound(text, writes.interval.high)?;
    text.push_str("\n")
}

/// Appends the lines of what threads write.
fn push_writes(text: &mut String, all: &[Writes]) -> Result<(), AllocError>
    ensures { OnOk result (string_bytes text.new ≡ string_bytes text.old ++
        flat_map told.writes_line (map writes_of all.now)) }
{
    for writes in all {
        push_line(text, writes)?;
    }
    Ok(())
}

/// Appends the lines before those of points.
fn push_head(text: &mut String, report: &ThreadsReport) -> Result<(), AllocError>
    ensures { OnOk result (string_bytes text.new ≡ string_bytes text.old ++
        (told.threads_line report.now.count report.now.delay report.now.narrow ++
        flag_text report.now.flagged)) }
{
    push_threads(text, report.count, report.delay, report.narrow)?;
    push_flag(text, report.flagged)?;
    Ok(())
}

/// The text of what is found of several threads.
pub fn threads_text(alloc: Global, report: &ThreadsReport) -> Result<String, AllocError>
    ensures { IfOk result (λ shown. string_bytes shown ≡
        told.threads_text (threads_report_of report.now)) }
{
    let mut text = String::new(alloc);
    push_head(&mut text, report)?;
    push_points(&mut text, alloc, report.points.as_slice())?;
    push_verdicts(&mut text, report.verdicts.as_slice())?;
    push_writes(&mut text, report.writes.as_slice())?;
    push_counts(&mut text, report.verdicts.as_slice())?;
    Ok(text)
}
