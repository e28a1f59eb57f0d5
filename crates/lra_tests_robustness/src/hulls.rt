//! Hulls of many facets and lists of many points.

use lra_tests_runs::Status;
use lra_tests_runs::memory::{SOUND, ended_within, written};
use std::alloc::{AllocError, Global};
use std::fmt::Write;

/// Adds the point that has the entry on an axis, and 0 on the others.
fn push_point(text: &mut String, n: usize, axis: usize, entry: &str) -> Result<(), AllocError> {
    text.push_str(" point 1")?;
    for column in 0..n {
        text.push_str(" ")?;
        text.push_str(if column == axis { entry } else { "0" })?;
    }
    Ok(())
}

/// Adds the points that have 1 or -1 on an axis, and 0 on the others.
fn push_points(text: &mut String, n: usize) -> Result<(), AllocError> {
    for axis in 0..n {
        text.push_str(if axis == 0 { "gen P" } else { " ;" })?;
        push_point(text, n, axis, "1")?;
        text.push_str(" ;")?;
        push_point(text, n, axis, "-1")?;
    }
    Ok(())
}

/// A script that asks whether the origin is in the hull of these points, which has two to the n facets.
fn cross_polytope(alloc: Global, n: usize) -> Result<String, AllocError> {
    let mut text = String::new(alloc);
    writeln!(&mut text, "dims {n}")?;
    push_points(&mut text, n)?;
    text.push_str("\nholds P 1")?;
    for _ in 0..n {
        text.push_str(" 0")?;
    }
    Ok(text)
}

/// Whether that script writes this.
fn polytope_writes(alloc: Global, n: usize, expected: &str) -> Result<bool, AllocError> {
    let script = cross_polytope(alloc, n)?;
    let (_status, same) = written(alloc, "lra calc", script.as_bytes(), SOUND, expected)?;
    Ok(same)
}

/// Numbers of dimensions, and what is written for that script.
static FACETS: [(usize, &str); 2] = [
    (12, "holds P yes\nflagged 0\n"),
    (13, "holds P yes\nflagged at line 2\n"),
];

#[test]
fn many_facets(rt: HostRuntime) {
    for (n, expected) in FACETS.iter() {
        assert!(rt;
            polytope_writes(rt.alloc(), *n, expected) == Ok(true),
            "{n}"
        );
    }
}

/// Thirteen variables.
static NAMES: [&str; 13] = [
    "a", "b", "c", "d", "e", "f", "g", "h", "i", "j", "k", "l", "m",
];

/// Each of the variables may be from 0 to 1.
fn cube(alloc: Global) -> Result<String, AllocError> {
    let mut source = String::from_str(alloc, "int main(void){ ")?;
    for name in NAMES.iter() {
        write!(
            source,
            "long {name}=input(); assume({name}>=0&&{name}<=1); "
        )?;
    }
    source.push_str("}")?;
    Ok(source)
}

/// What comes after this; nothing if it doesn't occur.
fn behind<'a>(text: &'a str, front: &str) -> &'a str {
    match text.split_once(front) {
        Some((_, rest)) => rest,
        None => "",
    }
}

/// How many lines begin so.
pub fn count_lines(text: &str, front: &str) -> usize {
    text.lines().filter(|line| line.starts_with(front)).count()
}

/// How many rows, points, rays and lines a text reports.
fn counts_of(text: &str) -> [usize; 4] {
    [
        count_lines(text, "  row "),
        count_lines(text, "  gen point "),
        count_lines(text, "  gen ray "),
        count_lines(text, "  gen line "),
    ]
}

/// How the run over the cube ends, whether it is flagged at point 26, and what point 27 reports.
fn cube_tells(alloc: Global) -> Result<(Status, bool, [usize; 4]), AllocError> {
    let source = cube(alloc)?;
    let bytes = source.as_bytes();
    let (end, text) = ended_within(alloc, "lra analyse", bytes, SOUND, 3_000_000)?;
    let flagged = text.contains("\nflagged at point 26\n");
    let counts = counts_of(behind(&text, "\npoint 27 main "));
    Ok((end, flagged, counts))
}

/// With the thirteenth variable there would be 8,192 points: its rows are left out.
#[test]
fn a_list_of_points_has_a_limit(rt: HostRuntime) {
    let told = (Status::Proved, true, [24, 4096, 0, 1]);
    assert!(rt; cube_tells(rt.alloc()) == Ok(told));
}
