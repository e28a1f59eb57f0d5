ghost use Rattle.std.specs.Prelude.{◌≡◌, ◌<◌, length, IfOk};

use lra_domain::{ConSys, Domain, Exactness, Included, LinExpr, Mode, Test};
use lra_octagon::{Boxes, ConKind};
use lra_poly_domain::Row;
use std::alloc::{AllocError, Global};

/// Assigns the form of this constant and these factors, through the bound.
pub fn set_by<D: Domain>(
    alloc: Global,
    value: &mut D,
    x: usize,
    constant: i64,
    factors: &[i64],
) -> Result<Exactness, AllocError>
    requires place { x < D.abstraction.dims value.old }
    requires width { length factors.now ≡ D.abstraction.dims value.old }
    ensures { D.abstraction.dims value.new ≡ D.abstraction.dims value.old }
{
    let form = LinExpr::new(alloc, constant, factors)?;
    let exactness = value.assign(x, &form)?;
    Ok(exactness)
}

/// Keeps where the form isn't negative, through the bound.
pub fn keep_by<D: Domain>(
    alloc: Global,
    value: &mut D,
    constant: i64,
    factors: &[i64],
) -> Result<Exactness, AllocError>
    requires { length factors.now ≡ D.abstraction.dims value.old }
    ensures { D.abstraction.dims value.new ≡ D.abstraction.dims value.old }
{
    let test = Test {
        expr: LinExpr::new(alloc, constant, factors)?,
        kind: ConKind::Ge,
    };
    let exactness = value.test(&test)?;
    Ok(exactness)
}

/// x = 3 and 3 <= y <= 10, by an assignment and two tests through the bound.
pub fn value_by<D: Domain>(alloc: Global) -> Result<D, AllocError>
    ensures { IfOk result (λ v. D.abstraction.dims v ≡ 2) }
{
    let mut value = D::universe(alloc, 2, 1)?;
    set_by(alloc, &mut value, 0, 3, &[0, 0])?;
    keep_by(alloc, &mut value, 0, &[-1, 1])?;
    keep_by(alloc, &mut value, 10, &[0, -1])?;
    Ok(value)
}

/// Copies, comparisons, a forgotten dimension and a join, through the bound: whether each is as it should be.
pub fn compares_by<D: Domain>(alloc: Global, value: &mut D) -> Result<[bool; 5], AllocError>
    requires { D.abstraction.dims value.old ≡ 2 }
    ensures { D.abstraction.dims value.new ≡ 2 }
{
    let mut other = value.copy(alloc)?;
    let same = other.same(value);
    other.forget(1)?;
    let inside = value.included(&other) == Included::Yes;
    let outside = other.included(value) == Included::No;
    let nothing = D::empty(alloc, 2, 1)?;
    let vacant = nothing.is_empty() && !value.is_empty();
    let joined = value.join(&nothing)? == Exactness::Exact;
    Ok([same, inside, outside, vacant, joined])
}

/// A dimension more and one less, through the bound; how many there were between.
pub fn resizes_by<D: Domain>(value: &mut D) -> Result<usize, AllocError>
    requires { D.abstraction.dims value.old ≡ 2 }
    ensures { IfOk result (λ n. D.abstraction.dims value.new ≡ 2) }
{
    value.embed(1)?;
    let dims = value.dims();
    value.remove_last(1)?;
    Ok(dims)
}

/// Adds 1 to the one dimension and grows the head by that, through the bound: the last number of the head's rank.
fn grow_by<D: Domain>(
    alloc: Global,
    head: &mut D::Head,
    value: &mut D,
    mode: Mode,
) -> Result<u64, AllocError>
    requires head { D.abstraction.head_dims head.old ≡ 1 }
    requires value { D.abstraction.dims value.old ≡ 1 }
    ensures head { D.abstraction.head_dims head.new ≡ 1 }
    ensures value { D.abstraction.dims value.new ≡ 1 }
{
    set_by(alloc, value, 0, 1, &[1])?;
    D::grow(head, value, mode)?;
    Ok(D::rank(head).fourth)
}

/// A head of 0, joined with 1, widened by 2, through the bound: its value, and its ranks.
pub fn head_by<D: Domain>(alloc: Global) -> Result<(D, [u64; 3]), AllocError> {
    let mut value = D::universe(alloc, 1, 1)?;
    set_by(alloc, &mut value, 0, 0, &[0])?;
    let mut head = D::start(alloc, &value, &ConSys::new(alloc, 1))?;
    let first = D::rank(&head).fourth;
    let second = grow_by(alloc, &mut head, &mut value, Mode::Join)?;
    let third = grow_by(alloc, &mut head, &mut value, Mode::Widen)?;
    let (last, _exactness) = D::value(alloc, &head)?;
    Ok((last, [first, second, third]))
}

fn is_row(row: &Row, numbers: &[i128; 3]) -> bool {
    for (column, number) in numbers.iter().enumerate() {
        if column >= row.width() || row.get(column) != *number {
            return false;
        }
    }
    row.width() == 3
}

/// Whether the part has these rows, in this order.
pub fn has_rows(part: &ConSys, want: &[([i128; 3], ConKind)]) -> bool {
    for ((row, kind), (numbers, right)) in part.rows().iter().zip(part.kinds()).zip(want.iter()) {
        if *kind != *right || !is_row(row, numbers) {
            return false;
        }
    }
    part.rows().len() == want.len()
}

/// Whether the value has one part, with these rows, through the bound.
pub fn shows_by<D: Domain>(
    alloc: Global,
    value: &D,
    want: &[([i128; 3], ConKind)],
) -> Result<bool, AllocError> {
    let parts = value.parts(alloc)?;
    for part in &parts {
        if !has_rows(part, want) {
            return Ok(false);
        }
    }
    Ok(parts.len() == 1)
}

/// How many parts the value has, and how many rows the last of them, through the bound.
fn counts_by<D: Domain>(alloc: Global, value: &D) -> Result<(usize, usize), AllocError> {
    let parts = value.parts(alloc)?;
    let mut rows = 0;
    for part in &parts {
        rows = part.rows().len();
    }
    Ok((parts.len(), rows))
}

/// The rows of the value: x = 3, y >= 3, y <= 10, in this order.
pub const VALUE: [([i128; 3], ConKind); 3] = [
    ([-3, 1, 0], ConKind::Eq),
    ([-3, 0, 1], ConKind::Ge),
    ([10, 0, -1], ConKind::Ge),
];

/// Whether all calls on the value answer as they should, through the bound.
pub fn answers_by<D: Domain>(alloc: Global) -> Result<bool, AllocError> {
    let mut value = value_by::<D>(alloc)?;
    let compared = compares_by(alloc, &mut value)? == [true; 5];
    let shown = shows_by(alloc, &value, &VALUE)?;
    Ok(compared && shown && resizes_by(&mut value)? == 3)
}

/// Whether that head has these ranks, and one row in the end, through the bound.
pub fn has_head_by<D: Domain>(alloc: Global, want: [u64; 3]) -> Result<bool, AllocError> {
    let (value, ranks) = head_by::<D>(alloc)?;
    Ok(ranks == want && counts_by(alloc, &value)? == (1, 1))
}

/// A head keeps its lower bound and loses its upper one by widening: its rank falls from 2 to 1.
#[test]
fn boxes_by_hand(rt: HostRuntime) {
    assert!(rt; answers_by::<Boxes>(rt.alloc()) == Ok(true));
    assert!(rt; has_head_by::<Boxes>(rt.alloc(), [2, 2, 1]) == Ok(true));
}

/// A coordinate, the constant and factors of the form that is assigned to it, and whether that is exact. x is without
/// bounds in the end: the last sum ends there, and nothing after it passes.
type Assigned = (usize, i64, [i64; 2], Exactness);

static ASSIGNED: [Assigned; 4] = [
    (0, i64::MAX, [0, 0], Exactness::Exact),
    (0, 0, [i64::MAX, 0], Exactness::Exact),
    (0, 0, [i64::MAX, 0], Exactness::Flagged),
    (1, 0, [1, i64::MAX], Exactness::Exact),
];

fn are_assigned(alloc: Global, rows: &[Assigned]) -> Result<bool, AllocError> {
    let mut value = <Boxes as Domain>::universe(alloc, 2, 1)?;
    for (x, constant, factors, want) in rows {
        if value.dims() != 2 || *x >= 2 {
            return Ok(false);
        }
        if set_by(alloc, &mut value, *x, *constant, factors)? != *want {
            return Ok(false);
        }
    }
    Ok(true)
}

/// A bound that passes the range goes, with a flag: (2^63 - 1)^3 is above 2^127.
#[test]
fn passing_the_range(rt: HostRuntime) {
    assert!(rt; are_assigned(rt.alloc(), &ASSIGNED) == Ok(true));
}

/// x and y from 0 to 2 * (2^63 - 1)^2, just below 2^127.
fn near_the_range<D: Domain>(alloc: Global) -> Result<D, AllocError>
    ensures { IfOk result (λ v. D.abstraction.dims v ≡ 2) }
{
    let mut value = D::universe(alloc, 2, 1)?;
    keep_by(alloc, &mut value, 0, &[1, 0])?;
    keep_by(alloc, &mut value, i64::MAX, &[-1, 0])?;
    set_by(alloc, &mut value, 0, 0, &[i64::MAX, 0])?;
    set_by(alloc, &mut value, 0, 0, &[2, 0])?;
    set_by(alloc, &mut value, 1, 0, &[1, 0])?;
    Ok(value)
}

const MOST: i128 = 170141183460469231694793815568465002498;

/// Whether the sum of these factors is flagged and keeps this row of x.
fn sum_keeps(alloc: Global, factors: &[i64; 2], kept: [i128; 3]) -> Result<bool, AllocError> {
    let mut value = near_the_range::<Boxes>(alloc)?;
    let flagged = set_by(alloc, &mut value, 0, 0, factors)? == Exactness::Flagged;
    let want = [
        (kept, ConKind::Ge),
        ([0, 0, 1], ConKind::Ge),
        ([MOST, 0, -1], ConKind::Ge),
    ];
    Ok(flagged && shows_by(alloc, &value, &want)?)
}

/// Of a sum only the bound goes that passes the range: the upper one of x + y, the lower one of -x - y.
#[test]
fn sums_passing_the_range(rt: HostRuntime) {
    assert!(rt; sum_keeps(rt.alloc(), &[1, 1], [0, 1, 0]) == Ok(true));
    assert!(rt; sum_keeps(rt.alloc(), &[-1, -1], [0, -1, 0]) == Ok(true));
}
