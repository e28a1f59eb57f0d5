//! Sets of parts.
ghost use Rattle.std.specs.Prelude.{◌≡◌, IfOk};

use crate::boxes::keep_by;
use lra_domain::{Domain, Exactness};
use lra_octagon::Boxes;
use lra_powerset::PowerSet;
use std::alloc::{AllocError, Global};

/// Where a form of one dimension isn't negative, as one part of at most two.
fn half(alloc: Global, constant: i64, factor: i64) -> Result<PowerSet<Boxes>, AllocError>
    ensures { IfOk result (λ set. set.dims ≡ 1) }
{
    let mut set = PowerSet::<Boxes>::universe(alloc, 1, 2)?;
    keep_by(alloc, &mut set, constant, &[factor])?;
    Ok(set)
}

/// Joins where a form isn't negative: how many parts there are then.
fn join_half(
    alloc: Global,
    set: &mut PowerSet<Boxes>,
    constant: i64,
    factor: i64,
) -> Result<usize, AllocError>
    requires { set.old.dims ≡ 1 }
    ensures { set.new.dims ≡ 1 }
{
    let other = half(alloc, constant, factor)?;
    set.join(&other)?;
    Ok(set.items().len())
}

/// From 5 on, or up to 0; from 7 on lies in from 5 on.
fn keeps_both(alloc: Global, set: &mut PowerSet<Boxes>) -> Result<bool, AllocError>
    requires { set.old.dims ≡ 1 }
    ensures { set.new.dims ≡ 1 }
{
    let first = join_half(alloc, set, 0, -1)?;
    let second = join_half(alloc, set, -7, 1)?;
    Ok((first, second) == (2, 2))
}

/// Both parts stay if they are reduced, and from 5 on lies in from 2 on.
fn is_reduced(alloc: Global) -> Result<bool, AllocError> {
    let mut set = half(alloc, -5, 1)?;
    let both = keeps_both(alloc, &mut set)?;
    let exact = set.reduce()? == Exactness::Exact;
    let stay = (set.items().len(), set.cap()) == (2, 2);
    let last = join_half(alloc, &mut set, -2, 1)? == 2;
    Ok(both && exact && stay && last && set.parts(alloc)?.len() == 2)
}

#[test]
fn parts_are_reduced(rt: HostRuntime) {
    assert!(rt; is_reduced(rt.alloc()) == Ok(true));
}
