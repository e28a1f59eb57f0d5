//! The reduction of a list of parts.

ghost use Rattle.std.specs.Prelude.{◌≡◌, ℕ, List, [], ◌∷◌, ◌++◌, ◌⊎◌, length, IfOk, OnErr, OnOk, vec_len};
ghost use Rattle.lra_powerset.specs.Antichains.{IsAntichain, AreTried, PrefixIsAntichain};
ghost use Rattle.lra_powerset.specs.Lists.{EachPart, SomePart};
ghost use Rattle.lra_powerset.specs.Outcomes.{AnswerDropped, HaveDims, IsReduced, AnswersWhether, kept};
ghost use Rattle.lra_powerset.specs.Reduction.{BelowStrains, IsDropped, DropStrains};
ghost use Rattle.lra_powerset.specs.Values.{AreUndecided, IsUndecided, PartsIncluded};

use crate::answers::{both, either, exactness_of};
use lra_domain::{BaseDomain, Domain, Exactness, Included};
use std::alloc::{AllocError, Global};

/// Whether the part lies in one of the others.
pub fn lies_in_some<D: BaseDomain>(part: &D, others: &[D]) -> Included
    requires { HaveDims D.abstraction (D.abstraction.dims part.now) others.now }
    ensures { AnswersWhether (SomePart (D.abstraction.included part.now) others.now)
        (IsUndecided D.abstraction others.now part.now) result }
{
    let Some((first, later)) = others.split_first() else {
        return Included::No;
    };
    let here = part.included(first);
    if here == Included::Yes {
        return Included::Yes;
    }
    either(here, lies_in_some(part, later))
}

/// Whether each part lies in one of the others.
pub fn all_lie_in<D: BaseDomain>(parts: &[D], others: &[D]) -> Included
    requires { (n : ℕ) × HaveDims D.abstraction n parts.now × HaveDims D.abstraction n others.now }
    ensures { AnswersWhether (PartsIncluded D.abstraction.included parts.now others.now)
        (AreUndecided D.abstraction parts.now others.now) result }
{
    let Some((first, later)) = parts.split_first() else {
        return Included::Yes;
    };
    let here = lies_in_some(first, others);
    if here == Included::No {
        return Included::No;
    }
    both(here, all_lie_in(later, others))
}

/// Whether the part lies in the other, and the other not in it.
fn lies_below<D: BaseDomain>(part: &D, other: &D) -> Included
    requires { D.abstraction.dims part.now ≡ D.abstraction.dims other.now }
    ensures { let m = D.abstraction in let p = part.now in let q = other.now in
        AnswersWhether (m.included p q × ¬ m.included q p) (BelowStrains m p q) result }
{
    match part.included(other) {
        Included::No => Included::No,
        Included::Wide => Included::Wide,
        Included::Yes => match other.included(part) {
            Included::Yes => Included::No,
            Included::No => Included::Yes,
            Included::Wide => Included::Wide,
        },
    }
}

/// Whether the part lies in one of the others that doesn't lie in it.
fn lies_below_some<D: BaseDomain>(part: &D, others: &[D]) -> Included
    requires { HaveDims D.abstraction (D.abstraction.dims part.now) others.now }
    ensures { let m = D.abstraction in let p = part.now in
        AnswersWhether (SomePart (λ q. m.included p q × ¬ m.included q p) others.now)
        (SomePart (BelowStrains m p) others.now ×
        EachPart (λ q. BelowStrains m p q ⊎ ¬ (m.included p q × ¬ m.included q p)) others.now) result }
{
    let Some((first, later)) = others.split_first() else {
        return Included::No;
    };
    let here = lies_below(part, first);
    if here == Included::Yes {
        return Included::Yes;
    }
    either(here, lies_below_some(part, later))
}

/// Whether the part goes, with these before it and these after it.
fn goes<D: BaseDomain>(before: &[D], part: &D, behind: &[D]) -> Included
    requires before { HaveDims D.abstraction (D.abstraction.dims part.now) before.now }
    requires behind { HaveDims D.abstraction (D.abstraction.dims part.now) behind.now }
    ensures { AnswersWhether (IsDropped D.abstraction before.now part.now behind.now)
        (DropStrains D.abstraction before.now part.now behind.now) result }
{
    let before_it = lies_in_some(part, before);
    if before_it == Included::Yes {
        return Included::Yes;
    }
    either(before_it, lies_below_some(part, behind))
}

/// Of each part whether it goes.
fn tell_all<D: BaseDomain>(alloc: Global, parts: &[D]) -> Result<Vec<Included>, AllocError>
    requires { (n : ℕ) × HaveDims D.abstraction n parts.now }
    ensures { IfOk result (λ told. AnswerDropped D.abstraction [] parts.now told.items) }
{
    let mut told = Vec::new(alloc);
    let mut rest = parts;
    while let Some((part, behind)) = rest.split_first() {
        let (before, _) = parts.split_at(told.len());
        told.push(goes(before, part, behind))?;
        rest = behind;
    }
    Ok(told)
}

/// Leaves out the parts that go.
#[tactic(auto, using(crate::proofs::TellLemmas::leaving))]
fn leave_out<D: BaseDomain>(parts: &mut Vec<D>, told: &[Included])
    requires { length told.now ≡ vec_len parts.old }
    ensures { parts.new.items ≡ kept parts.old.items told.now }
{
    let mut at = 0;
    let mut rest = told;
    while let Some((answer, more)) = rest.split_first() {
        if *answer == Included::Yes {
            parts.remove(at);
        } else {
            at += 1;
        }
        rest = more;
    }
}

/// Reduces the list. A part of which it isn't reported whether it goes stays, and flags.
#[tactic(auto, using(crate::proofs::TellLemmas::told_long))]
pub fn reduce<D: BaseDomain>(alloc: Global, parts: &mut Vec<D>) -> Result<Exactness, AllocError>
    requires { (n : ℕ) × HaveDims D.abstraction n parts.old.items }
    ensures reduced { IfOk result (λ e. IsReduced D.abstraction parts.old.items e parts.new.items) }
    ensures err { OnErr result (parts.new ≡ parts.old) }
{
    let told = tell_all(alloc, parts.as_slice())?;
    leave_out(parts, told.as_slice());
    Ok(exactness_of(told.as_slice()))
}

/// Of each part whether it goes, if none of those before the last lies in another of them: each is tried against
/// the last, and the last against them.
fn tell_last<D: BaseDomain>(
    alloc: Global,
    front: &[D],
    last: &D,
) -> Result<Vec<Included>, AllocError>
    requires alike { HaveDims D.abstraction (D.abstraction.dims last.now) front.now }
    requires apart { IsAntichain D.abstraction front.now }
    ensures { IfOk result
        (λ told. AnswerDropped D.abstraction [] (front.now ++ last.now ∷ []) told.items) }
{
    let mut told = Vec::new(alloc);
    let mut rest = front;
    while let Some((part, behind)) = rest.split_first() {
        told.push(lies_below(part, last))?;
        rest = behind;
    }
    told.push(lies_in_some(last, front))?;
    Ok(told)
}

/// Reduces the list, if none of the parts before the last lies in another of them.
fn reduce_last<D: BaseDomain>(alloc: Global, parts: &mut Vec<D>) -> Result<Exactness, AllocError>
    requires alike { (n : ℕ) × HaveDims D.abstraction n parts.old.items }
    requires apart { PrefixIsAntichain D.abstraction parts.old.items }
    ensures { IfOk result (λ e. IsReduced D.abstraction parts.old.items e parts.new.items) }
{
    let (front, behind) = parts.as_slice().split_at(parts.len() - 1);
    let told = tell_last(alloc, front, &behind[0])?;
    leave_out(parts, told.as_slice());
    Ok(exactness_of(told.as_slice()))
}

/// Which parts of a list may lie in another.
#[derive(Clone, Copy)]
pub enum Untried {
    /// Any of them.
    All,
    /// The last may, and others in it; none of the others in another of them.
    Last,
}

/// Reduces the list by what is yet untried.
pub fn reduce_untried<D: BaseDomain>(
    alloc: Global,
    untried: Untried,
    parts: &mut Vec<D>,
) -> Result<Exactness, AllocError>
    requires alike { (n : ℕ) × HaveDims D.abstraction n parts.old.items }
    requires tried { AreTried D.abstraction untried parts.old.items }
    ensures { IfOk result (λ e. IsReduced D.abstraction parts.old.items e parts.new.items) }
{
    match untried {
        Untried::All => reduce(alloc, parts),
        Untried::Last => reduce_last(alloc, parts),
    }
}
