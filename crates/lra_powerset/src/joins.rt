//! Parts that become one.

ghost use Rattle.std.specs.Prelude.{◌≡◌, ◌≤◌, ◌<◌, ℕ, List, [], length, IfOk, OnErr, OnOk, vec_len};
ghost use Rattle.lra_powerset.specs.Outcomes.{AreMerged, BecameOne, HaveDims, IsMerged, IsCollapsed, LastTwoBecomeJoin};
ghost use Rattle.lra_powerset.specs.{Antichains.AreTried, Content.PartFits, Lists.EachPart, Outcomes.CollapsesOnce};

use crate::reduction::{Untried, reduce_untried};
use crate::set::list_alone;
use lra_domain::{BaseDomain, Domain, Exactness, worse};
use std::alloc::{AllocError, Global};

/// Joins the parts, in order, into the first.
fn join_on<D: BaseDomain>(first: &mut D, others: &[D]) -> Result<Exactness, AllocError>
    requires formed { D.abstraction.well_formed first.old }
    requires alike { HaveDims D.abstraction (D.abstraction.dims first.old) others.now }
    ensures merged { IfOk result (λ e. IsMerged D.abstraction first.old others.now e first.new) }
    ensures dims { OnOk result (D.abstraction.dims first.new ≡ D.abstraction.dims first.old) }
{
    let Some((next, later)) = others.split_first() else {
        return Ok(Exactness::Exact);
    };
    let one = first.join(next)?;
    let two = join_on(first, later)?;
    Ok(worse(one, two))
}

/// The join of the parts, in order.
pub fn merge<D: BaseDomain>(alloc: Global, parts: &[D]) -> Result<(D, Exactness), AllocError>
    requires some { 0 < length parts.now }
    requires formed { EachPart D.abstraction.well_formed parts.now }
    requires alike { (n : ℕ) × HaveDims D.abstraction n parts.now }
    ensures merged { IfOk result (λ r. AreMerged D.abstraction parts.now r.1 r.0) }
    ensures dims { IfOk result (λ r. (n : ℕ) → HaveDims D.abstraction n parts.now → D.abstraction.dims r.0 ≡ n) }
{
    let (first, others) = parts.split_first().unwrap();
    let mut whole = first.copy(alloc)?;
    let exactness = join_on(&mut whole, others)?;
    Ok((whole, exactness))
}

/// All parts become one.
pub fn into_one<D: BaseDomain>(alloc: Global, parts: &[D]) -> Result<Vec<D>, AllocError>
    requires some { 0 < length parts.now }
    requires formed { EachPart D.abstraction.well_formed parts.now }
    requires alike { (n : ℕ) × HaveDims D.abstraction n parts.now }
    ensures { IfOk result (λ one. BecameOne D.abstraction parts.now one.items) }
{
    let (whole, _) = merge(alloc, parts)?;
    list_alone(alloc, whole)
}

/// The last two parts become their join, in the last place.
pub fn join_last_two<D: BaseDomain>(parts: &mut Vec<D>) -> Result<Exactness, AllocError>
    requires two { 2 ≤ vec_len parts.old }
    requires alike { (n : ℕ) × HaveDims D.abstraction n parts.old.items }
    ensures { IfOk result (λ e. LastTwoBecomeJoin D.abstraction parts.old.items e parts.new.items) }
{
    let two = parts.pop().unwrap();
    let mut one = parts.pop().unwrap();
    let exactness = one.join(&two)?;
    parts.push(one)?;
    Ok(exactness)
}

/// How far a list was settled.
#[derive(Clone, Copy)]
pub enum Collapsing {
    /// It is reduced, and has no more parts than the cap.
    Within(Exactness),
    /// It has more parts than the cap, or had, and something was flagged.
    Strained,
    /// It had more parts than the cap, and the last two became their join.
    Further,
}

/// The parts reduced; if there are more than the cap and nothing was flagged, the last two become their join.
fn settle_once<D: BaseDomain>(
    alloc: Global,
    cap: usize,
    untried: Untried,
    parts: &mut Vec<D>,
) -> Result<Collapsing, AllocError>
    requires cap { 1 ≤ cap }
    requires alike { (n : ℕ) × HaveDims D.abstraction n parts.old.items }
    requires tried { AreTried D.abstraction untried parts.old.items }
    ensures { IfOk result (λ r. CollapsesOnce D.abstraction cap parts.old.items r parts.new.items) }
{
    let reduced = reduce_untried(alloc, untried, parts)?;
    if parts.len() <= cap {
        return Ok(Collapsing::Within(reduced));
    }
    if reduced == Exactness::Flagged {
        return Ok(Collapsing::Strained);
    }
    let joined = join_last_two(parts)?;
    if joined == Exactness::Flagged {
        return Ok(Collapsing::Strained);
    }
    Ok(Collapsing::Further)
}

/// The parts reduced and kept within the cap, by what is yet untried: after a join that is the last part alone.
fn settle_untried<D: BaseDomain>(
    alloc: Global,
    cap: usize,
    untried: Untried,
    parts: Vec<D>,
) -> Result<(Vec<D>, Exactness), AllocError>
    requires cap { 1 ≤ cap }
    requires fit { (n : ℕ) × EachPart (PartFits D.abstraction n) parts.items }
    requires tried { AreTried D.abstraction untried parts.items }
    ensures { IfOk result (λ r. (n : ℕ) → EachPart (PartFits D.abstraction n) parts.items →
        IsCollapsed D.abstraction n cap parts.items r.1 r.0.items) }
{
    let mut left = parts;
    match settle_once(alloc, cap, untried, &mut left)? {
        Collapsing::Within(exactness) => Ok((left, exactness)),
        Collapsing::Strained => {
            let one = into_one(alloc, left.as_slice())?;
            Ok((one, Exactness::Flagged))
        }
        Collapsing::Further => settle_untried(alloc, cap, Untried::Last, left),
    }
}

/// The parts reduced and kept within the cap: while there are more, the last two become their join. If something was
/// flagged and there are more, all become one.
pub fn collapse<D: BaseDomain>(
    alloc: Global,
    cap: usize,
    parts: Vec<D>,
) -> Result<(Vec<D>, Exactness), AllocError>
    requires cap { 1 ≤ cap }
    requires fit { (n : ℕ) × EachPart (PartFits D.abstraction n) parts.items }
    ensures { IfOk result (λ r. (n : ℕ) → EachPart (PartFits D.abstraction n) parts.items →
        IsCollapsed D.abstraction n cap parts.items r.1 r.0.items) }
{
    settle_untried(alloc, cap, Untried::All, parts)
}
