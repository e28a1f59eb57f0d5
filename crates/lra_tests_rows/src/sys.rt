//! Worked rows.

ghost use Rattle.std.specs.Prelude.{◌≡◌, IfOk};

use lra_row::Row;
use lra_systems::{ConKind, ConSys, GenKind, GenSys, MembershipAnswer};
use std::alloc::{AllocError, Global};
use std::cmp::Ordering;
use std::hash::{DefaultHasher, Hash, Hasher};

const MAX: i128 = i128::MAX;

// The points with x1 at least 0 and x1 + x2 at most 4.
fn quarter(alloc: Global) -> Result<ConSys, AllocError>
    ensures { IfOk result (λ list. list.dims ≡ 2) }
{
    let mut quarter = ConSys::new(alloc, 2);
    quarter.push(Row::from_slice(alloc, &[0, 1, 0])?, ConKind::Ge)?;
    quarter.push(Row::from_slice(alloc, &[4, -1, -1])?, ConKind::Ge)?;
    Ok(quarter)
}

// Which of four points lie there.
fn members(alloc: Global) -> Result<[MembershipAnswer; 4], AllocError> {
    let quarter = quarter(alloc)?;
    Ok([
        quarter.holds_at(&[3, 5], 2),
        quarter.holds_at(&[3, 2], 1),
        quarter.holds_at(&[-1, MAX], 1),
        quarter.holds_at(&[MAX, MAX], 1),
    ])
}

/// 8 - 3 - 5 is 0, 4 - 3 - 2 is below 0, the first row decides, and 4 - MAX - MAX passes the range.
#[test]
fn membership(rt: HostRuntime) {
    let want = [
        MembershipAnswer::Yes,
        MembershipAnswer::No(1),
        MembershipAnswer::No(0),
        MembershipAnswer::Wide(1),
    ];
    assert!(rt; members(rt.alloc()) == Ok(want));
}

// The equality 2 x1 = 1, copied.
fn line(alloc: Global) -> Result<ConSys, AllocError>
    ensures { IfOk result (λ list. list.dims ≡ 1) }
{
    let mut line = ConSys::new(alloc, 1);
    line.push(Row::from_slice(alloc, &[-1, 2])?, ConKind::Eq)?;
    let same = line.copy()?;
    Ok(same)
}

// How many rows it has, and which of two points lie there.
fn members_of_line(alloc: Global) -> Result<(usize, [MembershipAnswer; 2]), AllocError> {
    let line = line(alloc)?;
    let found = [line.holds_at(&[1], 2), line.holds_at(&[1], 1)];
    Ok((line.kinds().len(), found))
}

#[test]
fn equalities(rt: HostRuntime) {
    let want = (1, [MembershipAnswer::Yes, MembershipAnswer::No(0)]);
    assert!(rt; members_of_line(rt.alloc()) == Ok(want));
}

// The half line from 0.
fn half_line(alloc: Global) -> Result<GenSys, AllocError> {
    let mut ray = GenSys::new(alloc, 1);
    ray.push(Row::from_slice(alloc, &[1, 0])?, GenKind::Point)?;
    ray.push(Row::from_slice(alloc, &[0, 1])?, GenKind::Ray)?;
    Ok(ray)
}

fn are_same(left: &[Row], right: &[Row]) -> bool {
    for (one, other) in left.iter().zip(right) {
        if one.width() != other.width() || one.compare(other) != Ordering::Equal {
            return false;
        }
    }
    left.len() == right.len()
}

// Whether its copy is the same.
fn is_copied(alloc: Global) -> Result<bool, AllocError> {
    let ray = half_line(alloc)?;
    let same = ray.copy()?;
    let kinds = same.kinds() == [GenKind::Point, GenKind::Ray].as_slice();
    Ok(kinds && same.dims() == 1 && are_same(ray.rows(), same.rows()))
}

#[test]
fn generators(rt: HostRuntime) {
    assert!(rt; is_copied(rt.alloc()) == Ok(true));
}

// The numbers and the kind at the second place of a list, and how many rows it has.
fn second_row(alloc: Global) -> Result<bool, AllocError> {
    let mut list = ConSys::new(alloc, 2);
    list.push(Row::of(alloc, &[4, -1, 0])?, ConKind::Ge)?;
    list.push(Row::unit(alloc, 2, 1, -3)?, ConKind::Eq)?;
    let (row, kind) = list.at(1);
    Ok(list.len() == 2 && row.entries() == &[0, -3, 0][..] && kind == ConKind::Eq)
}

#[test]
fn places(rt: HostRuntime) {
    assert!(rt; second_row(rt.alloc()) == Ok(true));
}

fn hash_of(list: &ConSys) -> u64 {
    let mut state = DefaultHasher::new();
    list.hash(&mut state);
    state.finish()
}

// Whether a list and its copy are one key, and lists of other dimensions, rows and kinds are others.
fn are_keys(alloc: Global) -> Result<bool, AllocError> {
    let list = line(alloc)?;
    let same = list.copy()?;
    let mut half = ConSys::new(alloc, 1);
    half.push(Row::of(alloc, &[-1, 2])?, ConKind::Ge)?;
    let is_one = list == same && hash_of(&list) == hash_of(&same);
    let other_kinds = half < list && hash_of(&half) != hash_of(&list);
    let none = ConSys::new(alloc, 1);
    let other_rows = none < list && none != list;
    let other_dimensions = none < ConSys::new(alloc, 2);
    Ok(is_one && other_kinds && other_rows && other_dimensions && list < quarter(alloc)?)
}

#[test]
fn keys(rt: HostRuntime) {
    assert!(rt; are_keys(rt.alloc()) == Ok(true));
}
