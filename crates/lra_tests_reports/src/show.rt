//! Worked rows, generators and names.

ghost use Rattle.std.specs.List.{All};
ghost use Rattle.lra_tests_reports.specs.Crates.{lra_linear_spec.Range.InRange, lra_systems.LinearSystems.FitsKind};

use lra_report::{ConSys, names_at};
use lra_report_json::Row;
use lra_row_text::{ConKind, GenKind, Names, generator_text, row_text, value_text};
use std::alloc::{AllocError, Global};

fn names_of(alloc: Global, texts: &[&str]) -> Result<Names, AllocError> {
    let mut names = Names::new(alloc);
    for text in texts {
        names.push(text)?;
    }
    Ok(names)
}

/// Whether this is shown of a row over `x`, `y` and `z`.
fn shows_row(
    alloc: Global,
    numbers: &[i128],
    kind: ConKind,
    expected: &str,
) -> Result<bool, AllocError>
    requires { All InRange numbers.now }
{
    let names = names_of(alloc, &["x", "y", "z"])?;
    let row = Row::from_slice(alloc, numbers)?;
    Ok(row_text(alloc, &row, kind, &names)?.as_bytes() == expected.as_bytes())
}

#[test]
fn rows(rt: HostRuntime) {
    let rows: [(&[i128], ConKind, &str); 7] = [
        (&[-3, 1, 0, 0], ConKind::Eq, "x = 3"),
        (&[3, -1, 0, 0], ConKind::Eq, "x = 3"),
        (&[0, 1, 0, -2], ConKind::Ge, "x - 2*z >= 0"),
        (&[4, -1, -1, 0], ConKind::Ge, "x + y <= 4"),
        (&[-4, 0, 2, 3], ConKind::Ge, "2*y + 3*z >= 4"),
        (&[4, 0, -2, 3], ConKind::Ge, "2*y - 3*z <= 4"),
        (
            &[i128::MAX, -i128::MAX, 0, 0],
            ConKind::Ge,
            "170141183460469231731687303715884105727*x <= 170141183460469231731687303715884105727",
        ),
    ];
    for (numbers, kind, expected) in rows {
        let same = shows_row(rt.alloc(), numbers, kind, expected);
        assert!(rt; same == Ok(true), "{expected}");
    }
}

/// Whether this is shown of a generator over these names.
fn shows_generator(
    alloc: Global,
    names: &[&str],
    numbers: &[i128],
    kind: GenKind,
    expected: &str,
) -> Result<bool, AllocError>
    requires numbers { All InRange numbers.now }
    requires kind { FitsKind kind numbers.now }
{
    let names = names_of(alloc, names)?;
    let row = Row::from_slice(alloc, numbers)?;
    Ok(generator_text(alloc, &row, kind, &names)?.as_bytes() == expected.as_bytes())
}

#[test]
fn generators(rt: HostRuntime) {
    let generators: [(&[i128], GenKind, &str); 5] = [
        (&[1, 2, 0], GenKind::Point, "point i=2 j=0"),
        (&[2, -2, 3], GenKind::Point, "point i=-1 j=3/2"),
        (&[6, 4, -9], GenKind::Point, "point i=2/3 j=-3/2"),
        (&[0, 2, 1], GenKind::Ray, "ray i=2 j=1"),
        (&[0, 1, -1], GenKind::Line, "line i=1 j=-1"),
    ];
    for (numbers, kind, expected) in generators {
        let same = shows_generator(rt.alloc(), &["i", "j"], numbers, kind, expected);
        assert!(rt; same == Ok(true), "{expected}");
    }
    let origin = shows_generator(rt.alloc(), &[], &[1], GenKind::Point, "point");
    assert!(rt; origin == Ok(true));
}

/// Whether the names have these texts.
fn are(names: &Names, texts: &[&str]) -> bool {
    for (name, text) in names.texts().iter().zip(texts) {
        if name.as_bytes() != text.as_bytes() {
            return false;
        }
    }
    names.texts().len() == texts.len()
}

fn hides_names(alloc: Global) -> Result<bool, AllocError> {
    let live = names_of(alloc, &["x", "y", "x", "x"])?;
    let shown = names_at(alloc, &live)?;
    Ok(are(&shown, &["x~2", "y", "x~1", "x"]))
}

#[test]
fn hidden_names(rt: HostRuntime) {
    assert!(rt; hides_names(rt.alloc()) == Ok(true));
}

/// Two parts over numbered names: x1 >= 2 and x2 >= 0, or nothing asked.
fn shows_value(alloc: Global) -> Result<bool, AllocError> {
    let names = Names::numbered(alloc, 2)?;
    let mut first = ConSys::new(alloc, 2);
    first.push(Row::of(alloc, &[-2, 1, 0])?, ConKind::Ge)?;
    first.push(Row::of(alloc, &[0, 0, 1])?, ConKind::Ge)?;
    let mut parts = Vec::new(alloc);
    parts.push(first)?;
    parts.push(ConSys::new(alloc, 2))?;
    let shown = value_text(alloc, parts.as_slice(), &names)?;
    Ok(shown.as_bytes() == "x1 >= 2\nx2 >= 0\nor\ntrue\n".as_bytes())
}

#[test]
fn whole_values(rt: HostRuntime) {
    assert!(rt; shows_value(rt.alloc()) == Ok(true));
}
