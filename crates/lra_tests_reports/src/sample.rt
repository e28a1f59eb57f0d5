//! Sample sources, and what is reported about their reports.

use lra_options::DEFAULT_OPTIONS;
use lra_report::{Place, Point, PointReport, Report, Verdict, VerdictKind};
use lra_row_text::Names;
use lra_sample::{program, summary};
use std::alloc::{AllocError, Global};

/// Seeds and sizes with the lines between the declarations and the assertion.
static SOURCES: [(u64, u32, &str); 4] = [
    (0, 0, ""),
    (
        0,
        3,
        "v0=input();assume(v0>=0&&v0<=36);\nif(v3<75)v0=v0+1;else v0=75;\nv3=v3+82;\n",
    ),
    (1, 1, "v1=0;while(v1<70)v1=v1+1;\n"),
    (18446744073709551615, 2, "v3=v1+2;\nv3=v1+47;\n"),
];

const HEAD: &str = "int main(void){\nlong v0=0;\nlong v1=0;\nlong v2=0;\nlong v3=0;\n";

const END: &str = "assert(v0<=v0);\n}\n";

fn source_of(alloc: Global, lines: &str) -> Result<Vec<u8>, AllocError> {
    let mut text = String::from_str(alloc, HEAD)?;
    text.push_str(lines)?;
    text.push_str(END)?;
    Ok(text.into_bytes())
}

/// Whether the source has these lines.
fn is_source(alloc: Global, seed: u64, size: u32, lines: &str) -> Result<bool, AllocError> {
    let made = program(alloc, seed, size)?;
    Ok(made.as_slice() == source_of(alloc, lines)?.as_slice())
}

#[test]
fn sources(rt: HostRuntime) {
    for (seed, size, lines) in SOURCES.iter() {
        assert!(rt;
            is_source(rt.alloc(), *seed, *size, lines) == Ok(true),
            "{seed} {size}"
        );
    }
}

/// Seeds with the bytes of their greatest sources.
static LENGTHS: [(u64, usize); 2] = [(1, 9912), (2, 9647)];

fn greatest_length(alloc: Global, seed: u64) -> Result<usize, AllocError> {
    Ok(program(alloc, seed, 400)?.len())
}

#[test]
fn greatest_sources(rt: HostRuntime) {
    for (seed, bytes) in LENGTHS.iter() {
        assert!(rt; greatest_length(rt.alloc(), *seed) == Ok(*bytes), "{seed}");
    }
}

fn point(alloc: Global, label: usize) -> Point {
    Point {
        path: Vec::new(alloc),
        label,
    }
}

fn points(alloc: Global, count: u32) -> Result<Vec<PointReport>, AllocError> {
    let mut points = Vec::new(alloc);
    for number in 0..count {
        points.push(PointReport {
            number,
            point: point(alloc, 1),
            path: String::from_str(alloc, "main")?,
            place: Place {
                line: 1,
                column: 16,
            },
            names: Names::new(alloc),
            state: Vec::new(alloc),
        })?;
    }
    Ok(points)
}

fn report(alloc: Global, count: u32) -> Result<Report, AllocError> {
    let mut verdicts = Vec::new(alloc);
    verdicts.push(Verdict {
        kind: VerdictKind::Assertion,
        number: 6,
        point: point(alloc, 6),
        which: 0,
        path: String::from_str(alloc, "main")?,
        place: Place { line: 6, column: 1 },
        holds: true,
    })?;
    Ok(Report {
        options: DEFAULT_OPTIONS,
        flagged: None,
        points: points(alloc, count)?,
        verdicts,
    })
}

/// Sizes with the points of their reports and the lines that are reported about them.
static SUMMARIES: [(u32, u32, &str); 2] = [
    (
        0,
        6,
        "sample seed 0 size 0\nbytes 78\npoints 6\nflagged 0\nverdicts proved 1 unknown 0\n",
    ),
    (
        1,
        8,
        "sample seed 0 size 1\nbytes 112\npoints 8\nflagged 0\nverdicts proved 1 unknown 0\n",
    ),
];

/// Whether these lines are reported of the report with so many points.
fn is_told(alloc: Global, size: u32, count: u32, lines: &str) -> Result<bool, AllocError> {
    let report = report(alloc, count)?;
    let source = program(alloc, 0, size)?;
    let told = summary(alloc, 0, size, source.as_slice(), &report)?;
    Ok(told.as_bytes() == lines.as_bytes())
}

#[test]
fn summaries(rt: HostRuntime) {
    for (size, count, lines) in SUMMARIES.iter() {
        assert!(rt;
            is_told(rt.alloc(), *size, *count, lines) == Ok(true),
            "size {size}"
        );
    }
}
