//! The least changes of a set, part by part.

ghost use Rattle.std.specs.Prelude.{◌≡◌, ◌≤◌, ◌<◌, ◌+◌, ◌++◌, ◌∷◌, ◌^◌, ℕ, List, [], length, IfOk, OnOk};
ghost use Rattle.lra_domain.specs.{Abstraction.TransfersTo, Actions.dims_after};
ghost use Rattle.lra_powerset.specs.Outcomes.{AreChanged, HaveDims, IsAppended};
ghost use Rattle.lra_powerset.specs.{Changes.ChangeFits, Changes.borrowed_action, Content.nonempty_parts};

use lra_domain::{BaseDomain, Domain, Exactness, LinExpr, Test, worse};
use std::alloc::{AllocError, Global};

/// A least change of a value, as the calls of `Domain`.
#[derive(Clone, Copy)]
pub enum BorrowedChange<'a> {
    /// The dimension gets the value of the form.
    Assign(usize, &'a LinExpr),
    /// The dimension gets any value.
    Forget(usize),
    /// Only stores that pass need stay.
    Test(&'a Test),
    /// Appends so many dimensions, of any value.
    Embed(usize),
    /// Removes so many dimensions, the last ones.
    RemoveLast(usize),
}

/// The part is changed.
fn change_part<D: BaseDomain>(
    part: &mut D,
    change: &BorrowedChange<'_>,
) -> Result<Exactness, AllocError>
    requires { ChangeFits change.now (D.abstraction.dims part.old) }
    ensures meets { IfOk result
        (λ a. TransfersTo D.abstraction (borrowed_action change.now) part.old a part.new) }
    ensures dims { OnOk result
        (D.abstraction.dims part.new ≡ dims_after (borrowed_action change.now) (D.abstraction.dims part.old)) }
{
    match change {
        BorrowedChange::Assign(x, e) => part.assign(*x, e),
        BorrowedChange::Forget(x) => part.forget(*x),
        BorrowedChange::Test(t) => part.test(t),
        BorrowedChange::Embed(k) => part.embed(*k),
        BorrowedChange::RemoveLast(k) => part.remove_last(*k),
    }
}

/// Takes the part in, unless it is empty.
pub fn push_filled<D: BaseDomain>(parts: &mut Vec<D>, part: D) -> Result<(), AllocError>
    ensures { OnOk result
        (parts.new.items ≡ parts.old.items ++ nonempty_parts D.abstraction (part ∷ [])) }
{
    if !part.is_empty() {
        parts.push(part)?;
    }
    Ok(())
}

/// Appends the part, changed, unless it became empty.
fn append_one<D: BaseDomain>(
    alloc: Global,
    part: &D,
    change: &BorrowedChange<'_>,
    all: &mut Vec<D>,
) -> Result<Exactness, AllocError>
    requires { ChangeFits change.now (D.abstraction.dims part.now) }
    ensures { IfOk result (λ e.
        IsAppended D.abstraction (borrowed_action change.now) part.now e all.old.items
        all.new.items) }
{
    let mut changed = part.copy(alloc)?;
    let exactness = change_part(&mut changed, change)?;
    push_filled(all, changed)?;
    Ok(exactness)
}

/// Appends the parts, each changed, but for those that became empty.
pub fn append_changed<D: BaseDomain>(
    alloc: Global,
    parts: &[D],
    change: &BorrowedChange<'_>,
    all: &mut Vec<D>,
) -> Result<Exactness, AllocError>
    requires { (n : ℕ) × HaveDims D.abstraction n parts.now × ChangeFits change.now n }
    ensures { IfOk result (λ e. (qs : List D) × (all.new.items ≡ all.old.items ++ qs) ×
        AreChanged D.abstraction (borrowed_action change.now) parts.now e qs) }
{
    let Some((first, later)) = parts.split_first() else {
        return Ok(Exactness::Exact);
    };
    let one = append_one(alloc, first, change, all)?;
    let others = append_changed(alloc, later, change, all)?;
    Ok(worse(one, others))
}

/// How many dimensions there are after the change.
pub fn dims_behind(change: &BorrowedChange<'_>, n: usize) -> usize
    requires { ChangeFits change.now n }
    ensures { result ≡ dims_after (borrowed_action change.now) n }
{
    match change {
        BorrowedChange::Assign(_, _) | BorrowedChange::Forget(_) | BorrowedChange::Test(_) => n,
        BorrowedChange::Embed(k) => n + *k,
        BorrowedChange::RemoveLast(k) => n - *k,
    }
}
