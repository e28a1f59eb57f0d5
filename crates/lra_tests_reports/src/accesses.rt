//! Verdicts on accesses of arrays, as lines and as JSON.

use lra_options::{DEFAULT_OPTIONS, Domain, Options};
use lra_report::{Place, Point, Report, Verdict, VerdictKind, text};
use lra_report_json::json_text;
use std::alloc::{AllocError, Global};

/// A verdict on an access in `main`.
fn access(
    alloc: Global,
    number: u32,
    which: usize,
    column: u32,
    holds: bool,
) -> Result<Verdict, AllocError> {
    Ok(Verdict {
        kind: VerdictKind::Access,
        number,
        point: Point {
            path: Vec::new(alloc),
            label: number as usize,
        },
        which,
        path: String::from_str(alloc, "main")?,
        place: Place { line: 1, column },
        holds,
    })
}

/// The verdicts on `int main(void){ int a[2]; a[1]=a[0]; a[2]=1; }` over boxes, without its points.
fn report_of_accesses(alloc: Global) -> Result<Report, AllocError> {
    let mut report = Report {
        options: Options {
            domain: Domain::Box,
            ..DEFAULT_OPTIONS
        },
        flagged: None,
        points: Vec::new(alloc),
        verdicts: Vec::new(alloc),
    };
    report.verdicts.push(access(alloc, 2, 0, 27, true)?)?;
    report.verdicts.push(access(alloc, 2, 1, 32, true)?)?;
    report.verdicts.push(access(alloc, 3, 0, 38, false)?)?;
    Ok(report)
}

const LINES: &str =
    "analysis box parts 1 delay 1 narrow 1 limited no\nflagged 0\naccess 2 main 1:27 in bounds\n\
            access 2 main 1:32 in bounds\naccess 3 main 1:38 unknown\nverdicts proved 2 unknown 1\n";

fn writes_lines(alloc: Global) -> Result<bool, AllocError> {
    let report = report_of_accesses(alloc)?;
    Ok(text(alloc, &report)?.as_bytes() == LINES.as_bytes())
}

/// Both counts of the last line take them in.
#[test]
fn lines_of_accesses(rt: HostRuntime) {
    assert!(rt; writes_lines(rt.alloc()) == Ok(true));
}

const JSON: &[u8] = b"{\"accesses\":[{\"place\":\"1:27\",\"point\":2,\"verdict\":\"in bounds\"},\
            {\"place\":\"1:32\",\"point\":2,\"verdict\":\"in bounds\"},\
            {\"place\":\"1:38\",\"point\":3,\"verdict\":\"unknown\"}],\
            \"analysis\":{\"delay\":1,\"domain\":\"box\",\"limited\":false,\"narrow\":1,\"parts\":1},\
            \"asserts\":[],\"flagged\":0,\"points\":[],\"proved\":2,\"unknown\":1}\n";

fn writes_json(alloc: Global) -> Result<bool, AllocError> {
    let report = report_of_accesses(alloc)?;
    Ok(json_text(alloc, &report)?.as_slice() == JSON)
}

/// They stand under a key of their own, each with its place.
#[test]
fn json_of_accesses(rt: HostRuntime) {
    assert!(rt; writes_json(rt.alloc()) == Ok(true));
}
