//! Polyhedra as a domain: its calls, and how heads grow.

ghost use Rattle.std.specs.Prelude.{◌≡◌, IfOk};

use crate::boxes::{VALUE, answers_by, has_rows, head_by, keep_by, set_by, value_by};
use lra_domain::{ConSys, Domain, Exactness, Grown, Mode};
use lra_octagon::ConKind;
use lra_poly_domain::{Polyhedron, PolyhedronHead, Row};
use std::alloc::{AllocError, Global};

/// x = 3 and 3 <= y <= 10, from the point (3, 3) to the point (3, 10).
fn is_segment(alloc: Global) -> Result<bool, AllocError> {
    let value = value_by::<Polyhedron>(alloc)?;
    Ok(has_rows(value.rows(), &VALUE) && value.generators().rows().len() == 2)
}

/// A head has an equality, then two inequalities, then one: the last number of the rank counts these.
fn has_head(alloc: Global) -> Result<bool, AllocError> {
    let (value, ranks) = head_by::<Polyhedron>(alloc)?;
    Ok(ranks == [0, 2, 1] && value.rows().rows().len() == 1)
}

#[test]
fn polyhedra_by_hand(rt: HostRuntime) {
    assert!(rt; answers_by::<Polyhedron>(rt.alloc()) == Ok(true));
    assert!(rt; is_segment(rt.alloc()) == Ok(true));
    assert!(rt; has_head(rt.alloc()) == Ok(true));
}

/// From 1 to the most.
fn up_to(alloc: Global, most: i64) -> Result<Polyhedron, AllocError>
    ensures { IfOk result (λ p. p.dims ≡ 1) }
{
    let mut value = <Polyhedron as Domain>::universe(alloc, 1, 1)?;
    keep_by(alloc, &mut value, -1, &[1])?;
    keep_by(alloc, &mut value, most, &[-1])?;
    Ok(value)
}

/// The widening thresholds of `x < 10`: x <= 9 and x <= 10.
fn given_rows(alloc: Global) -> Result<ConSys, AllocError>
    ensures { IfOk result (λ list. list.dims ≡ 1) }
{
    let mut list = ConSys::new(alloc, 1);
    list.push(Row::from_slice(alloc, &[9, -1])?, ConKind::Ge)?;
    list.push(Row::from_slice(alloc, &[10, -1])?, ConKind::Ge)?;
    Ok(list)
}

const EXACT: Grown = Grown::Grew(Exactness::Exact);

/// A mode and how far next goes from 1; what growing the head does, how many widening thresholds are left, and the rows
/// that its value has then.
struct Turn {
    mode: Mode,
    most: i64,
    answer: Grown,
    given: usize,
    rows: &'static [[i128; 2]],
}

/// A head of 0 under both thresholds: joined, widened up to 9 and up to 10, and beyond.
static TURNS: [Turn; 5] = [
    Turn {
        mode: Mode::Join,
        most: 1,
        answer: EXACT,
        given: 2,
        rows: &[[0, 1], [1, -1]],
    },
    Turn {
        mode: Mode::Limited,
        most: 2,
        answer: EXACT,
        given: 2,
        rows: &[[0, 1], [9, -1]],
    },
    Turn {
        mode: Mode::Limited,
        most: 10,
        answer: EXACT,
        given: 1,
        rows: &[[0, 1], [10, -1]],
    },
    Turn {
        mode: Mode::Limited,
        most: 10,
        answer: Grown::Stable,
        given: 1,
        rows: &[[0, 1], [10, -1]],
    },
    Turn {
        mode: Mode::Widen,
        most: 11,
        answer: EXACT,
        given: 0,
        rows: &[[0, 1]],
    },
];

fn are_rows(rows: &[Row], want: &[[i128; 2]]) -> bool {
    if rows.len() != want.len() {
        return false;
    }
    for (row, numbers) in rows.iter().zip(want) {
        if row.entries() != numbers.as_slice() {
            return false;
        }
    }
    true
}

/// The head of 0.
fn first_head(alloc: Global) -> Result<PolyhedronHead, AllocError>
    ensures { IfOk result (λ h. h.value.dims ≡ 1) }
{
    let mut zero = <Polyhedron as Domain>::universe(alloc, 1, 1)?;
    set_by(alloc, &mut zero, 0, 0, &[0])?;
    let given = given_rows(alloc)?;
    let head = <Polyhedron as Domain>::start(alloc, &zero, &given)?;
    Ok(head)
}

/// Whether the head grows so, and has these rows then.
fn grows(alloc: Global, head: &mut PolyhedronHead, turn: &Turn) -> Result<bool, AllocError> {
    if head.value().dims() != 1 {
        return Ok(false);
    }
    let next = up_to(alloc, turn.most)?;
    let answer = <Polyhedron as Domain>::grow(head, &next, turn.mode)?;
    let kept = head.thresholds().rows().len();
    let rows = are_rows(head.value().rows().rows(), turn.rows);
    Ok(answer == turn.answer && kept == turn.given && rows)
}

fn grows_by_turns(alloc: Global, turns: &[Turn]) -> Result<bool, AllocError> {
    let mut head = first_head(alloc)?;
    for turn in turns {
        if !grows(alloc, &mut head, turn)? {
            return Ok(false);
        }
    }
    Ok(true)
}

#[test]
fn heads_grow(rt: HostRuntime) {
    assert!(rt; grows_by_turns(rt.alloc(), &TURNS) == Ok(true));
}

/// The one number 4 * (2^63 - 1), and the numbers x with (2^63 - 1) * x >= 1: their product passes 2^127.
fn far_apart(alloc: Global) -> Result<(Polyhedron, Polyhedron), AllocError>
    ensures far { IfOk result (λ r. r.0.dims ≡ 1) }
    ensures near { IfOk result (λ r. r.1.dims ≡ 1) }
{
    let mut far = <Polyhedron as Domain>::universe(alloc, 1, 1)?;
    set_by(alloc, &mut far, 0, i64::MAX, &[0])?;
    set_by(alloc, &mut far, 0, 0, &[4])?;
    let mut near = <Polyhedron as Domain>::universe(alloc, 1, 1)?;
    keep_by(alloc, &mut near, -1, &[i64::MAX])?;
    Ok((far, near))
}

/// A head whose inclusion isn't decided becomes all points, with a flag, though next lies in it.
fn is_given_up(alloc: Global) -> Result<bool, AllocError> {
    let (far, near) = far_apart(alloc)?;
    let given = ConSys::new(alloc, 1);
    let mut head = <Polyhedron as Domain>::start(alloc, &near, &given)?;
    let answer = <Polyhedron as Domain>::grow(&mut head, &far, Mode::Join)?;
    let (value, exactness) = <Polyhedron as Domain>::value(alloc, &head)?;
    let all = exactness == Exactness::Exact && value.rows().rows().is_empty();
    Ok(all && answer == Grown::Grew(Exactness::Flagged))
}

#[test]
fn heads_are_given_up(rt: HostRuntime) {
    assert!(rt; is_given_up(rt.alloc()) == Ok(true));
}
