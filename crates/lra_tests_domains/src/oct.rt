//! Octagons as a domain: its calls, and how heads grow.

ghost use Rattle.std.specs.Prelude.{◌≡◌, ◌<◌, IfOk};

use crate::boxes::{compares_by, has_head_by, keep_by, resizes_by, set_by, shows_by};
use lra_domain::Domain;
use lra_octagon::{ConKind, Octagon};
use std::alloc::{AllocError, Global};

/// x + y <= 1 and x <= y, through the bound.
fn value_by<D: Domain>(alloc: Global) -> Result<D, AllocError>
    ensures { IfOk result (λ v. D.abstraction.dims v ≡ 2) }
{
    let mut value = D::universe(alloc, 2, 1)?;
    keep_by(alloc, &mut value, 1, &[-1, -1])?;
    keep_by(alloc, &mut value, 0, &[-1, 1])?;
    Ok(value)
}

/// Assigns, through the bound: whether the value has these rows then.
fn sets_by<D: Domain>(
    alloc: Global,
    value: &mut D,
    x: usize,
    form: &[i64; 3],
    want: &[([i128; 3], ConKind); 3],
) -> Result<bool, AllocError>
    requires place { x < 2 }
    requires dims { D.abstraction.dims value.old ≡ 2 }
    ensures { D.abstraction.dims value.new ≡ 2 }
{
    set_by(alloc, value, x, form[0], &[form[1], form[2]])?;
    let shown = shows_by(alloc, value, want)?;
    Ok(shown)
}

const TESTED: [([i128; 3], ConKind); 3] = [
    ([0, -1, 1], ConKind::Ge),
    ([0, -1, 0], ConKind::Ge),
    ([1, -1, -1], ConKind::Ge),
];

const EQUATED: [([i128; 3], ConKind); 3] = [
    ([2, 1, -1], ConKind::Eq),
    ([0, -1, 0], ConKind::Ge),
    ([2, 0, -1], ConKind::Ge),
];

const SHIFTED: [([i128; 3], ConKind); 3] = [
    ([-3, 1, 1], ConKind::Eq),
    ([-1, 1, 0], ConKind::Ge),
    ([2, 0, -1], ConKind::Ge),
];

/// x + y <= 1 and x <= y, then y = x + 2, then x = 1 - x, through the bound: whether each has its rows.
fn shown_by<D: Domain>(alloc: Global, value: &mut D) -> Result<bool, AllocError>
    requires { D.abstraction.dims value.old ≡ 2 }
{
    let tested = shows_by(alloc, value, &TESTED)?;
    let equated = sets_by(alloc, value, 1, &[2, 1, 0], &EQUATED)?;
    let shifted = sets_by(alloc, value, 0, &[1, -1, 0], &SHIFTED)?;
    Ok(tested && equated && shifted)
}

/// Whether all calls on a value of two dimensions answer as they should, through the bound.
fn answers_by<D: Domain>(alloc: Global) -> Result<bool, AllocError> {
    let mut value = value_by::<D>(alloc)?;
    let compared = compares_by(alloc, &mut value)? == [true; 5];
    let resized = resizes_by(&mut value)?;
    let shown = shown_by(alloc, &mut value)?;
    Ok(compared && resized == 3 && shown)
}

/// x + y <= 1 and x <= y give x <= 0. A head of 0 that grows to 0 and 1 and is widened by 2 loses its upper bound: its
/// rank falls from 4 to 3, and x >= 0 stays.
#[test]
fn octagons_by_hand(rt: HostRuntime) {
    assert!(rt; answers_by::<Octagon>(rt.alloc()) == Ok(true));
    assert!(rt; has_head_by::<Octagon>(rt.alloc(), [4, 4, 3]) == Ok(true));
}
