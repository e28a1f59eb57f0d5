//! Reports as JSON.

use lra_options::{DEFAULT_OPTIONS, Domain, Options};
use lra_report::{ConSys, Part, Place, Point, PointReport, Report, Verdict, VerdictKind};
use lra_report_json::{Row, json_text, to_value};
use lra_row_text::{ConKind, GenKind, GenSys, Names};
use std::alloc::{AllocError, Global};

fn options(domain: Domain) -> Options {
    Options {
        domain,
        ..DEFAULT_OPTIONS
    }
}

fn point(alloc: Global, label: usize) -> Point {
    Point {
        path: Vec::new(alloc),
        label,
    }
}

fn point_report(
    alloc: Global,
    number: u32,
    place: Place,
    names: Names,
    state: Vec<Part>,
) -> Result<PointReport, AllocError> {
    Ok(PointReport {
        number,
        point: point(alloc, number as usize),
        path: String::from_str(alloc, "main")?,
        place,
        names,
        state,
    })
}

/// The whole space of no variable.
fn universe(alloc: Global) -> Result<Vec<Part>, AllocError> {
    let mut generators = GenSys::new(alloc, 0);
    generators.push(Row::from_slice(alloc, &[1])?, GenKind::Point)?;
    let mut state = Vec::new(alloc);
    state.push(Part::new(ConSys::new(alloc, 0), Some(generators)))?;
    Ok(state)
}

/// A report without points.
fn empty_report(alloc: Global, domain: Domain, flagged: Option<u32>) -> Report {
    Report {
        options: options(domain),
        flagged,
        points: Vec::new(alloc),
        verdicts: Vec::new(alloc),
    }
}

/// The report of `int main(void){}` over polyhedra.
fn report_of_empty_main(alloc: Global) -> Result<Report, AllocError> {
    let place = Place {
        line: 1,
        column: 16,
    };
    let mut report = empty_report(alloc, Domain::Poly, None);
    let state = universe(alloc)?;
    let point = point_report(alloc, 1, place, Names::new(alloc), state)?;
    report.points.push(point)?;
    Ok(report)
}

const EMPTY_MAIN: &[u8] =
    b"{\"analysis\":{\"delay\":1,\"domain\":\"poly\",\"limited\":false,\"narrow\":1,\"parts\":1},\
            \"asserts\":[],\"flagged\":0,\"points\":[{\"number\":1,\"parts\":[{\"generators\":[\"point\"],\
            \"rows\":[]}],\"path\":\"main\",\"place\":\"1:16\"}],\"proved\":0,\"unknown\":0}\n";

fn writes_empty_main(alloc: Global) -> Result<bool, AllocError> {
    let report = report_of_empty_main(alloc)?;
    Ok(json_text(alloc, &report)?.as_slice() == EMPTY_MAIN)
}

#[test]
fn empty_main(rt: HostRuntime) {
    assert!(rt; writes_empty_main(rt.alloc()) == Ok(true));
}

fn x_alone(alloc: Global) -> Result<Names, AllocError> {
    let mut names = Names::new(alloc);
    names.push("x")?;
    Ok(names)
}

fn verdict(alloc: Global, number: u32, place: Place, holds: bool) -> Result<Verdict, AllocError> {
    Ok(Verdict {
        kind: VerdictKind::Assertion,
        number,
        point: point(alloc, number as usize),
        which: 0,
        path: String::from_str(alloc, "main")?,
        place,
        holds,
    })
}

/// Where `x` is 0, over boxes.
fn zero(alloc: Global) -> Result<Part, AllocError> {
    let mut rows = ConSys::new(alloc, 1);
    rows.push(Row::from_slice(alloc, &[0, 1])?, ConKind::Eq)?;
    Ok(Part::new(rows, None))
}

/// Where it is 5.
fn five(alloc: Global) -> Result<Part, AllocError> {
    let mut rows = ConSys::new(alloc, 1);
    rows.push(Row::from_slice(alloc, &[-5, 1])?, ConKind::Eq)?;
    Ok(Part::new(rows, None))
}

fn zero_and_five(alloc: Global) -> Result<Vec<Part>, AllocError> {
    let mut state = Vec::new(alloc);
    state.push(zero(alloc)?)?;
    state.push(five(alloc)?)?;
    Ok(state)
}

/// A point where `x` is declared.
fn with_x(
    alloc: Global,
    number: u32,
    place: Place,
    state: Vec<Part>,
) -> Result<PointReport, AllocError> {
    let names = x_alone(alloc)?;
    point_report(alloc, number, place, names, state)
}

/// A flagged report over boxes: two parts, a point that isn't reached, and verdicts of both kinds.
fn report_of_two_parts(alloc: Global) -> Result<Report, AllocError> {
    let place = Place {
        line: 1,
        column: 52,
    };
    let mut report = empty_report(alloc, Domain::Box, Some(6));
    let state = zero_and_five(alloc)?;
    report.points.push(with_x(alloc, 5, place, state)?)?;
    report
        .points
        .push(with_x(alloc, 6, place, Vec::new(alloc))?)?;
    report.verdicts.push(verdict(alloc, 5, place, true)?)?;
    report.verdicts.push(verdict(alloc, 6, place, false)?)?;
    Ok(report)
}

const TWO_PARTS: &str =
    "{\"analysis\":{\"delay\":1,\"domain\":\"box\",\"limited\":false,\"narrow\":1,\"parts\":1},\
            \"asserts\":[{\"point\":5,\"verdict\":\"proved\"},{\"point\":6,\"verdict\":\"unknown\"}],\"flagged\":6,\
            \"points\":[{\"number\":5,\"parts\":[{\"rows\":[\"x = 0\"]},{\"rows\":[\"x = 5\"]}],\"path\":\"main\",\
            \"place\":\"1:52\"},{\"number\":6,\"parts\":[],\"path\":\"main\",\"place\":\"1:52\"}],\
            \"proved\":1,\"unknown\":1}";

fn writes_two_parts(alloc: Global) -> Result<bool, AllocError> {
    let report = report_of_two_parts(alloc)?;
    let value = to_value(alloc, &report)?;
    Ok(value.to_string(alloc)?.as_bytes() == TWO_PARTS.as_bytes())
}

#[test]
fn two_parts(rt: HostRuntime) {
    assert!(rt; writes_two_parts(rt.alloc()) == Ok(true));
}
