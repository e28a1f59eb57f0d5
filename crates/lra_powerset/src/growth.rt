//! How what comes after a head starts, and grows.

ghost use Rattle.std.specs.Prelude.{◌≡◌, ◌≢◌, ◌≤◌, ◌<◌, ◌⊎◌, ℕ, List, Some, true, false, length, IfOk, IfSome, OnErr};
ghost use Rattle.lra_domain.specs.declared.Exactness.{Exactness};
ghost use Rattle.lra_domain.specs.{Rank.RankFits, declared.Grown.Grown, declared.Mode.TheVariants.Join};
ghost use Rattle.lra_powerset.specs.Growth.{BecomesOne, MergesExactly, OneAnswers, OneValued, StartsAndGrows};
ghost use Rattle.lra_powerset.specs.{Content.PartFits, Forms.HeadFormFits, Forms.form_of, Growth.StartsAnew};
ghost use Rattle.lra_powerset.specs.{Growth.StaysWithAll, Heads.FormStarts, Lists.EachPart, Outcomes.HaveDims};

use crate::changes::push_filled;
use crate::joins::{collapse, merge};
use crate::set::append_copies;
use lra_domain::{BaseDomain, ConSys, Domain, Exactness, Grown, Mode};
use std::alloc::{AllocError, Global};

/// What comes after the head of a set.
pub enum Held<V, H> {
    /// Parts, not one.
    Many(Vec<V>),
    /// The head of a single part.
    One(H),
    /// The part with all stores, of a head that was given up.
    Whole(V),
}

impl<V: Drop, H: Drop> Drop for Held<V, H> {
    fn drop(self) {
        match self {
            Held::Many(_) => {}
            Held::One(_) => {}
            Held::Whole(_) => {}
        }
    }
}

/// What comes after a head that starts with the parts: a single one becomes a head of its own.
pub fn start_with<D: BaseDomain>(
    alloc: Global,
    parts: Vec<D>,
    given: &ConSys,
) -> Result<Held<D, D::Head>, AllocError>
    requires fit { EachPart (PartFits D.abstraction given.now.dims) parts.items }
    ensures starts { IfOk result (λ h. FormStarts D.abstraction given.now parts.items (form_of h)) }
    ensures fits { IfOk result (λ h. (cap : ℕ) → length parts.items ≤ cap →
        HeadFormFits D.abstraction given.now.dims cap (form_of h)) }
{
    if parts.len() == 1 {
        let one = D::start(alloc, &parts[0], given)?;
        return Ok(Held::One(one));
    }
    Ok(Held::Many(parts))
}

/// The parts of the value of a single part's head: none if it is empty.
pub fn value_one<D: BaseDomain>(
    alloc: Global,
    head: &D::Head,
) -> Result<(Vec<D>, Exactness), AllocError>
    ensures { IfOk result (λ r. OneValued D.abstraction head.now r.1 r.0.items) }
{
    let (value, exactness) = D::value(alloc, head)?;
    let mut parts = Vec::new(alloc);
    push_filled(&mut parts, value)?;
    Ok((parts, exactness))
}

/// The parts and next's, reduced and kept within the cap; with them a head starts again.
pub fn start_anew<D: BaseDomain>(
    alloc: Global,
    cap: usize,
    given: &ConSys,
    parts: Vec<D>,
    next: &[D],
) -> Result<(Held<D, D::Head>, Exactness), AllocError>
    requires cap { 1 ≤ cap }
    requires fit { EachPart (PartFits D.abstraction given.now.dims) parts.items }
    requires next { EachPart (PartFits D.abstraction given.now.dims) next.now }
    ensures starts { IfOk result (λ r.
        StartsAnew D.abstraction given.now given.now.dims cap parts.items next.now r.1
        (form_of r.0)) }
    ensures fits { IfOk result (λ r. HeadFormFits D.abstraction given.now.dims cap (form_of r.0)) }
{
    let mut all = parts;
    append_copies(alloc, &mut all, next)?;
    let (settled, exactness) = collapse(alloc, cap, all)?;
    let held = start_with(alloc, settled, given)?;
    Ok((held, exactness))
}

/// The join of the parts in order, if it lost nothing.
fn merge_exactly<D: BaseDomain>(alloc: Global, parts: &[D]) -> Result<Option<D>, AllocError>
    requires some { 0 < length parts.now }
    requires formed { EachPart D.abstraction.well_formed parts.now }
    requires alike { (n : ℕ) × HaveDims D.abstraction n parts.now }
    ensures merges { IfOk result (λ o. MergesExactly D.abstraction parts.now o) }
    ensures formed { IfOk result (λ o. IfSome o D.abstraction.well_formed) }
    ensures dims { IfOk result (λ o. (j : D) → o ≡ Some j → (n : ℕ) → HaveDims D.abstraction n parts.now →
        D.abstraction.dims j ≡ n) }
{
    let (joined, exactness) = merge(alloc, parts)?;
    match exactness {
        Exactness::Exact => Ok(Some(joined)),
        Exactness::Flagged => Ok(None),
    }
}

/// Whether nothing is flagged: the head is stable, or grew without loss.
fn is_exact(grown: Grown) -> bool
    ensures exact { result ≡ true → (grown ≡ Grown.Stable) ⊎ (grown ≡ Grown.Grew Exactness.Exact) }
    ensures flagged { result ≡ false → grown ≡ Grown.Grew Exactness.Flagged }
{
    match grown {
        Grown::Stable => true,
        Grown::Grew(Exactness::Exact) => true,
        Grown::Grew(Exactness::Flagged) => false,
    }
}

/// The parts become one, which grows by the other; nothing if a join of parts or its growth exceeds a limit.
fn start_and_grow<D: BaseDomain>(
    alloc: Global,
    given: &ConSys,
    parts: &[D],
    by: &D,
    mode: Mode,
) -> Result<Option<D::Head>, AllocError>
    requires some { 0 < length parts.now }
    requires fit { EachPart (PartFits D.abstraction given.now.dims) parts.now }
    requires by { (D.abstraction.dims by.now ≡ given.now.dims) × D.abstraction.well_formed by.now }
    ensures grows { IfOk result
        (λ o. StartsAndGrows D.abstraction given.now parts.now by.now mode o) }
    ensures fits { IfOk result (λ o. (h : D.Head) → o ≡ Some h →
        (D.abstraction.head_dims h ≡ given.now.dims) × RankFits (D.abstraction.rank h)
        × D.abstraction.head_well_formed h) }
{
    match merge_exactly(alloc, parts)? {
        None => Ok(None),
        Some(whole) => {
            let mut head = D::start(alloc, &whole, given)?;
            let grown = D::grow(&mut head, by, mode)?;
            let exact = is_exact(grown);
            if exact { Ok(Some(head)) } else { Ok(None) }
        }
    }
}

/// The parts, not one, become one, which grows by next's; nothing if a join of parts or its growth exceeds a limit.
pub fn become_one<D: BaseDomain>(
    alloc: Global,
    given: &ConSys,
    parts: &[D],
    next: &[D],
    mode: Mode,
) -> Result<Option<D::Head>, AllocError>
    requires fit { EachPart (PartFits D.abstraction given.now.dims) parts.now }
    requires next { EachPart (PartFits D.abstraction given.now.dims) next.now }
    requires some { 0 < length next.now }
    requires widens { mode ≢ Join }
    ensures becomes { IfOk result
        (λ o. BecomesOne D.abstraction given.now parts.now next.now mode o) }
    ensures fits { IfOk result (λ o. (h : D.Head) → o ≡ Some h →
        (D.abstraction.head_dims h ≡ given.now.dims) × RankFits (D.abstraction.rank h)
        × D.abstraction.head_well_formed h) }
{
    match merge_exactly(alloc, next)? {
        None => Ok(None),
        Some(by) => {
            if parts.is_empty() {
                let head = D::start(alloc, &by, given)?;
                return Ok(Some(head));
            }
            start_and_grow(alloc, given, parts, &by, mode)
        }
    }
}

/// Whether each of the parts is reported to lie in the head. If one isn't, the head may have grown by it.
fn stays_with_all<D: BaseDomain>(
    head: &mut D::Head,
    parts: &[D],
    mode: Mode,
) -> Result<bool, AllocError>
    requires held { D.abstraction.head_well_formed head.old }
    requires alike { HaveDims D.abstraction (D.abstraction.head_dims head.old) parts.now }
    ensures formed { D.abstraction.head_well_formed head.new }
    ensures stays { IfOk result
        (λ b. StaysWithAll D.abstraction head.old parts.now mode b head.new) }
    ensures dims { D.abstraction.head_dims head.new ≡ D.abstraction.head_dims head.old }
    ensures fits { RankFits (D.abstraction.rank head.old) → RankFits (D.abstraction.rank head.new) }
    ensures err { OnErr result (head.new ≡ head.old) }
{
    let Some((first, later)) = parts.split_first() else {
        return Ok(true);
    };
    match D::grow(head, first, mode)? {
        Grown::Grew(_) => Ok(false),
        Grown::Stable => stays_with_all(head, later, mode),
    }
}

/// The head of a single part grows by the join of next's parts. If that join is flagged, it stays if each part lies
/// in it; else there is no answer, and nothing is known of the head.
pub fn grow_one<D: BaseDomain>(
    alloc: Global,
    head: &mut D::Head,
    next: &[D],
    mode: Mode,
) -> Result<Option<Grown>, AllocError>
    requires held { D.abstraction.head_well_formed head.old }
    requires next { EachPart (PartFits D.abstraction (D.abstraction.head_dims head.old)) next.now }
    requires widens { mode ≢ Join }
    ensures formed { D.abstraction.head_well_formed head.new }
    ensures answers { IfOk result
        (λ o. OneAnswers D.abstraction head.old next.now mode o head.new) }
    ensures dims { D.abstraction.head_dims head.new ≡ D.abstraction.head_dims head.old }
    ensures fits { RankFits (D.abstraction.rank head.old) → RankFits (D.abstraction.rank head.new) }
    ensures err { OnErr result (head.new ≡ head.old) }
{
    if next.is_empty() {
        return Ok(Some(Grown::Stable));
    }
    let (joined, exactness) = merge(alloc, next)?;
    if exactness == Exactness::Exact {
        let grown = D::grow(head, &joined, mode)?;
        return Ok(Some(grown));
    }
    if stays_with_all(head, next, mode)? {
        return Ok(Some(Grown::Stable));
    }
    Ok(None)
}
