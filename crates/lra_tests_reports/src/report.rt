//! Worked reports.

use lra_options::{DEFAULT_OPTIONS, Domain, Options};
use lra_report::{
    CallPlace, ConSys, Part, Place, Point, PointReport, Report, Verdict, VerdictKind, names_at,
    path_text, text,
};
use lra_report_json::Row;
use lra_row_text::{ConKind, GenKind, GenSys, Names};
use std::alloc::{AllocError, Global};

fn place(line: u32, column: u32) -> Place {
    Place { line, column }
}

fn point(alloc: Global, label: usize) -> Point {
    Point {
        path: Vec::new(alloc),
        label,
    }
}

fn in_main(
    alloc: Global,
    number: u32,
    place: Place,
    names: Names,
    state: Vec<Part>,
) -> Result<PointReport, AllocError> {
    Ok(PointReport {
        number,
        point: point(alloc, number as usize),
        path: String::from_str(alloc, "main")?,
        place,
        names,
        state,
    })
}

fn x_alone(alloc: Global) -> Result<Names, AllocError> {
    let mut names = Names::new(alloc);
    names.push("x")?;
    Ok(names)
}

fn one_part(alloc: Global, rows: ConSys) -> Result<Vec<Part>, AllocError> {
    let mut state = Vec::new(alloc);
    state.push(Part::new(rows, None))?;
    Ok(state)
}

fn x_is_3(alloc: Global) -> Result<Vec<Part>, AllocError> {
    let mut rows = ConSys::new(alloc, 1);
    rows.push(Row::from_slice(alloc, &[-3, 1])?, ConKind::Eq)?;
    one_part(alloc, rows)
}

/// The point where nothing is declared.
fn start(alloc: Global) -> Result<PointReport, AllocError> {
    let state = one_part(alloc, ConSys::new(alloc, 0))?;
    in_main(alloc, 1, place(1, 22), Names::new(alloc), state)
}

/// A point where `x` is declared.
fn with_x(
    alloc: Global,
    number: u32,
    column: u32,
    state: Vec<Part>,
) -> Result<PointReport, AllocError> {
    let names = x_alone(alloc)?;
    in_main(alloc, number, place(1, column), names, state)
}

/// Adds the four points of `int main(void){ long x; x = 3; assert(x >= 3); }`.
fn push_points_of_one_variable(
    alloc: Global,
    points: &mut Vec<PointReport>,
) -> Result<(), AllocError> {
    points.push(start(alloc)?)?;
    let declared = one_part(alloc, ConSys::new(alloc, 1))?;
    points.push(with_x(alloc, 2, 25, declared)?)?;
    points.push(with_x(alloc, 3, 32, x_is_3(alloc)?)?)?;
    points.push(with_x(alloc, 4, 48, x_is_3(alloc)?)?)?;
    Ok(())
}

/// The verdict on its assertion.
fn verdict_of_one_variable(alloc: Global) -> Result<Verdict, AllocError> {
    Ok(Verdict {
        kind: VerdictKind::Assertion,
        number: 3,
        point: point(alloc, 3),
        which: 0,
        path: String::from_str(alloc, "main")?,
        place: place(1, 32),
        holds: true,
    })
}

/// The report over boxes of a program with one variable.
fn report_of_one_variable(alloc: Global) -> Result<Report, AllocError> {
    let mut report = Report {
        options: Options {
            domain: Domain::Box,
            ..DEFAULT_OPTIONS
        },
        flagged: None,
        points: Vec::new(alloc),
        verdicts: Vec::new(alloc),
    };
    push_points_of_one_variable(alloc, &mut report.points)?;
    report.verdicts.push(verdict_of_one_variable(alloc)?)?;
    Ok(report)
}

const ONE_VARIABLE: &str =
    "analysis box parts 1 delay 1 narrow 1 limited no\nflagged 0\npoint 1 main 1:22\n  row true\n\
            point 2 main 1:25\n  row true\npoint 3 main 1:32\n  row x = 3\npoint 4 main 1:48\n  row x = 3\n\
            assert 3 main 1:32 proved\nverdicts proved 1 unknown 0\n";

/// Whether the report has this text.
fn has_text(alloc: Global, report: &Report, expected: &str) -> Result<bool, AllocError> {
    Ok(text(alloc, report)?.as_bytes() == expected.as_bytes())
}

fn writes_one_variable(alloc: Global) -> Result<bool, AllocError> {
    has_text(alloc, &report_of_one_variable(alloc)?, ONE_VARIABLE)
}

/// `int main(void){ long x; x = 3; assert(x >= 3); }` over boxes.
#[test]
fn one_variable(rt: HostRuntime) {
    assert!(rt; writes_one_variable(rt.alloc()) == Ok(true));
    assert!(rt; ONE_VARIABLE.len() == 231);
}

fn below(alloc: Global) -> Result<Part, AllocError> {
    let mut rows = ConSys::new(alloc, 2);
    rows.push(Row::from_slice(alloc, &[-1, -1, 1])?, ConKind::Ge)?;
    let mut generators = GenSys::new(alloc, 2);
    generators.push(Row::from_slice(alloc, &[1, 0, 1])?, GenKind::Point)?;
    generators.push(Row::from_slice(alloc, &[0, 0, 1])?, GenKind::Ray)?;
    generators.push(Row::from_slice(alloc, &[0, 1, 1])?, GenKind::Line)?;
    Ok(Part::new(rows, Some(generators)))
}

fn above(alloc: Global) -> Result<Part, AllocError> {
    let mut rows = ConSys::new(alloc, 2);
    rows.push(Row::from_slice(alloc, &[-1, 1, -1])?, ConKind::Ge)?;
    let mut generators = GenSys::new(alloc, 2);
    generators.push(Row::from_slice(alloc, &[2, 1, 0])?, GenKind::Point)?;
    generators.push(Row::from_slice(alloc, &[0, 1, 1])?, GenKind::Line)?;
    Ok(Part::new(rows, Some(generators)))
}

fn both_x(alloc: Global) -> Result<Names, AllocError> {
    let mut live = Names::new(alloc);
    live.push("x")?;
    live.push("x")?;
    names_at(alloc, &live)
}

/// The path of a call of `inc`.
fn path_to_inc(alloc: Global) -> Result<String, AllocError> {
    let mut calls = Vec::new(alloc);
    calls.push(CallPlace {
        name: String::from_str(alloc, "inc")?,
        place: place(1, 61),
    })?;
    path_text(alloc, calls.as_slice())
}

/// The two parts.
fn below_and_above(alloc: Global) -> Result<Vec<Part>, AllocError> {
    let mut state = Vec::new(alloc);
    state.push(below(alloc)?)?;
    state.push(above(alloc)?)?;
    Ok(state)
}

/// A point of two parts in that call.
fn in_call(alloc: Global) -> Result<PointReport, AllocError> {
    Ok(PointReport {
        number: 1,
        point: point(alloc, 1),
        path: path_to_inc(alloc)?,
        place: place(1, 22),
        names: both_x(alloc)?,
        state: below_and_above(alloc)?,
    })
}

/// Adds that point, and one in `main` that isn't reached.
fn push_points_of_two_parts(
    alloc: Global,
    points: &mut Vec<PointReport>,
) -> Result<(), AllocError> {
    points.push(in_call(alloc)?)?;
    points.push(in_main(alloc, 2, place(3, 9), Names::new(alloc), Vec::new(alloc))?)?;
    Ok(())
}

/// The verdict on the first of them.
fn verdict_of_two_parts(alloc: Global) -> Result<Verdict, AllocError> {
    Ok(Verdict {
        kind: VerdictKind::Assertion,
        number: 1,
        point: point(alloc, 1),
        which: 0,
        path: path_to_inc(alloc)?,
        place: place(1, 22),
        holds: false,
    })
}

/// Their report over polyhedra, flagged.
fn report_of_two_parts(alloc: Global) -> Result<Report, AllocError> {
    let mut report = Report {
        options: Options {
            parts: 2,
            delay: 0,
            narrow: 4,
            limited: true,
            ..DEFAULT_OPTIONS
        },
        flagged: Some(2),
        points: Vec::new(alloc),
        verdicts: Vec::new(alloc),
    };
    push_points_of_two_parts(alloc, &mut report.points)?;
    report.verdicts.push(verdict_of_two_parts(alloc)?)?;
    Ok(report)
}

const TWO_PARTS: &str = "analysis poly parts 2 delay 0 narrow 4 limited yes\nflagged at point 2\n\
            point 1 main/inc@1:61 1:22\n  row x~1 - x <= -1\n  gen point x~1=0 x=1\n  gen ray x~1=0 x=1\n  gen line \
            x~1=1 x=1\n  or\n  row x~1 - x >= 1\n  gen point x~1=1/2 x=0\n  gen line x~1=1 x=1\n\
            point 2 main 3:9\n  unreachable\nassert 1 main/inc@1:61 1:22 unknown\nverdicts proved 0 unknown 1\n";

fn writes_two_parts(alloc: Global) -> Result<bool, AllocError> {
    has_text(alloc, &report_of_two_parts(alloc)?, TWO_PARTS)
}

/// Two parts over polyhedra in a call, a point that isn't reached, and a flag.
#[test]
fn two_parts(rt: HostRuntime) {
    assert!(rt; writes_two_parts(rt.alloc()) == Ok(true));
}
