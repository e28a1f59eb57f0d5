//! The rows that mean a box.

ghost use Rattle.std.specs.Prelude.{◌≡◌, ◌^◌, ◌≤◌, ◌<◌, ◌+◌, ◌++◌, [], All, replicate, length, IfOk, OnOk, IfSome};
ghost use Rattle.std.specs.Prelude.{if◌then◌else◌};
ghost use Rattle.lra_box.specs.Crates.lra_linear_spec.Range.{InRange};
ghost use Rattle.lra_box.specs.Crates.lra_linear_spec.declared.ConKind.TheVariants.{Ge, Eq};
ghost use Rattle.lra_box.specs.Parts.{bound_row, is_single, low_rows, high_rows, box_equalities, box_inequalities};
ghost use Rattle.lra_box.specs.{Bounds.AllValidIntervals, Bounds.EndsInRange, Parts.box_system};

use crate::interval::Interval;
use lra_domain::{ConKind, ConSys, Row};
use std::alloc::{AllocError, Global};

/// The row `constant + factor * x_k` in `n` dimensions.
fn row_of(
    alloc: Global,
    n: usize,
    k: usize,
    constant: i128,
    factor: i128,
) -> Result<Row, AllocError>
    requires place { k < n }
    requires constant { InRange constant }
    requires factor { InRange factor }
    ensures { IfOk result (λ row. row ≡ bound_row n k constant factor) }
{
    let mut factors = vec![in alloc; 0i128; n]?;
    factors[k] = factor;
    let mut numbers = Vec::new(alloc);
    numbers.push(constant)?;
    numbers.extend_from_slice(factors.as_slice())?;
    Row::from_slice(alloc, numbers.as_slice())
}

/// Adds `x_k - low`, if there is a bound.
fn push_low(
    alloc: Global,
    system: &mut ConSys,
    n: usize,
    k: usize,
    low: Option<i128>,
    kind: ConKind,
) -> Result<(), AllocError>
    requires place { k < n }
    requires dims { system.old.dims ≡ n }
    requires range { IfSome low InRange }
    ensures dims { system.new.dims ≡ n }
    ensures rows { OnOk result (system.new.rows ≡ system.old.rows ++ low_rows n k low) }
    ensures kinds { OnOk result (system.new.kinds ≡ system.old.kinds ++ replicate (length (low_rows n k low)) kind) }
{
    match low {
        None => Ok(()),
        Some(l) => system.push(row_of(alloc, n, k, -l, 1)?, kind),
    }
}

/// Adds `high - x_k >= 0`, if there is a bound.
fn push_high(
    alloc: Global,
    system: &mut ConSys,
    n: usize,
    k: usize,
    high: Option<i128>,
) -> Result<(), AllocError>
    requires place { k < n }
    requires dims { system.old.dims ≡ n }
    requires range { IfSome high InRange }
    ensures dims { system.new.dims ≡ n }
    ensures rows { OnOk result (system.new.rows ≡ system.old.rows ++ high_rows n k high) }
    ensures kinds { OnOk result (system.new.kinds ≡ system.old.kinds ++ replicate (length (high_rows n k high)) Ge) }
{
    match high {
        None => Ok(()),
        Some(h) => system.push(row_of(alloc, n, k, h, -1)?, ConKind::Ge),
    }
}

/// Whether the interval holds one number.
fn is_single(interval: Interval) -> bool
    ensures { result ≡ is_single interval }
{
    match (interval.low, interval.high) {
        (Some(low), Some(high)) => low == high,
        _ => false,
    }
}

/// Adds the equality of a place, if its bounds are equal.
fn push_equal(
    alloc: Global,
    system: &mut ConSys,
    n: usize,
    k: usize,
    interval: Interval,
) -> Result<(), AllocError>
    requires place { k < n }
    requires dims { system.old.dims ≡ n }
    requires range { EndsInRange interval }
    ensures dims { system.new.dims ≡ n }
    ensures rows { OnOk result (system.new.rows ≡ system.old.rows ++
        (if is_single interval then low_rows n k interval.low else [])) }
    ensures kinds { OnOk result (system.new.kinds ≡ system.old.kinds ++
        replicate (length (if is_single interval then low_rows n k interval.low else [])) Eq) }
{
    if is_single(interval) {
        push_low(alloc, system, n, k, interval.low, ConKind::Eq)
    } else {
        Ok(())
    }
}

/// Adds the inequalities of a place, if its bounds aren't equal.
fn push_unequal(
    alloc: Global,
    system: &mut ConSys,
    n: usize,
    k: usize,
    interval: Interval,
) -> Result<(), AllocError>
    requires place { k < n }
    requires dims { system.old.dims ≡ n }
    requires range { EndsInRange interval }
    ensures dims { system.new.dims ≡ n }
    ensures rows { OnOk result (system.new.rows ≡ system.old.rows ++
        (if is_single interval then [] else low_rows n k interval.low ++ high_rows n k interval.high)) }
    ensures kinds { OnOk result (system.new.kinds ≡ system.old.kinds ++
        replicate (length (if is_single interval then [] else low_rows n k interval.low ++ high_rows n k interval.high))
        Ge) }
{
    if is_single(interval) {
        return Ok(());
    }
    push_low(alloc, system, n, k, interval.low, ConKind::Ge)?;
    push_high(alloc, system, n, k, interval.high)
}

/// Adds the equalities of all places.
fn push_equals(alloc: Global, system: &mut ConSys, intervals: &[Interval]) -> Result<(), AllocError>
    requires dims { system.old.dims ≡ length intervals.now }
    requires sound { AllValidIntervals intervals.now }
    ensures dims { system.new.dims ≡ length intervals.now }
    ensures rows { OnOk result (system.new.rows ≡ system.old.rows ++
        box_equalities (length intervals.now) 0 intervals.now) }
    ensures kinds { OnOk result (system.new.kinds ≡ system.old.kinds ++
        replicate (length (box_equalities (length intervals.now) 0 intervals.now)) Eq) }
{
    let mut k = 0;
    let mut left = intervals;
    while let Some((interval, later)) = left.split_first() {
        push_equal(alloc, system, intervals.len(), k, *interval)?;
        k += 1;
        left = later;
    }
    Ok(())
}

/// Adds the inequalities of all places.
fn push_unequals(
    alloc: Global,
    system: &mut ConSys,
    intervals: &[Interval],
) -> Result<(), AllocError>
    requires dims { system.old.dims ≡ length intervals.now }
    requires sound { AllValidIntervals intervals.now }
    ensures dims { system.new.dims ≡ length intervals.now }
    ensures rows { OnOk result (system.new.rows ≡ system.old.rows ++
        box_inequalities (length intervals.now) 0 intervals.now) }
    ensures kinds { OnOk result (system.new.kinds ≡ system.old.kinds ++
        replicate (length (box_inequalities (length intervals.now) 0 intervals.now)) Ge) }
{
    let mut k = 0;
    let mut left = intervals;
    while let Some((interval, later)) = left.split_first() {
        push_unequal(alloc, system, intervals.len(), k, *interval)?;
        k += 1;
        left = later;
    }
    Ok(())
}

/// The equalities, then the inequalities, each in order of their places.
pub fn system_of(alloc: Global, intervals: &[Interval]) -> Result<ConSys, AllocError>
    requires few { length intervals.now ≤ 2 ^ 30 }
    requires sound { AllValidIntervals intervals.now }
    ensures { IfOk result (λ system. system ≡ box_system (length intervals.now) intervals.now) }
{
    let mut system = ConSys::new(alloc, intervals.len());
    push_equals(alloc, &mut system, intervals)?;
    push_unequals(alloc, &mut system, intervals)?;
    Ok(system)
}
