//! An invariant of a transition system, whose steps are lists of changes, over any abstract domain.
#![tactic(auto)]

ghost use Rattle.std.specs.Prelude.{◌≡◌, ◌≤◌, ◌^◌, ℤ, List, map, IfOk, OnOk};
ghost use Rattle.guzhtarel.specs.Domains.Changes.{AllReturn, actions_of_steps};
ghost use Rattle.guzhtarel.specs.{Domains.Actions.Within, Domains.Gammas.InGamma, Domains.Moves.SomeLeads};

use guzhtarel::{Change, ConSys, Domain, Grown, Mode, change_all};
use std::alloc::{AllocError, Global};

/// Joins what each of the steps makes of the value.
fn join_steps<D: Domain>(
    alloc: Global,
    all: &mut D,
    value: &D,
    steps: &[Vec<Change>],
) -> Result<(), AllocError>
    requires dims { D.abstraction.dims all.old ≡ D.abstraction.dims value.now }
    requires fit { AllReturn (D.abstraction.dims value.now)
        (actions_of_steps (map (λ p. p.items) steps.now)) }
    ensures dims { D.abstraction.dims all.new ≡ D.abstraction.dims all.old }
    ensures kept { OnOk result
        (Within (InGamma D.abstraction all.old) (InGamma D.abstraction all.new)) }
    ensures stores { OnOk result
        (D.abstraction.well_formed all.old → (s t : List ℤ) → InGamma D.abstraction value.now s →
        SomeLeads (actions_of_steps (map (λ p. p.items) steps.now)) s t →
        InGamma D.abstraction all.new t) }
{
    let Some((first, later)) = steps.split_first() else {
        return Ok(());
    };
    let mut moved = value.copy(alloc)?;
    change_all(&mut moved, first.as_slice())?;
    all.join(&moved)?;
    join_steps(alloc, all, value, later)?;
    Ok(())
}

/// A value that holds all stores of the start and is kept by each step; `delay` rounds join before others widen.
pub fn invariant<D: Domain>(
    alloc: Global,
    start: &D,
    steps: &[Vec<Change>],
    delay: u32,
) -> Result<D, AllocError>
    requires few { D.abstraction.dims start.now ≤ 2 ^ 30 }
    requires fit { AllReturn (D.abstraction.dims start.now)
        (actions_of_steps (map (λ p. p.items) steps.now)) }
    ensures dims { IfOk result (λ v. D.abstraction.dims v ≡ D.abstraction.dims start.now) }
    ensures formed { IfOk result (λ v. D.abstraction.well_formed v) }
    ensures holds_start { IfOk result
        (λ v. Within (D.abstraction.gamma start.now) (D.abstraction.gamma v)) }
    ensures inductive { IfOk result (λ v. (s t : List ℤ) → D.abstraction.gamma v s →
        SomeLeads (actions_of_steps (map (λ p. p.items) steps.now)) s t → D.abstraction.gamma v t) }
{
    if start.is_empty() {
        return start.copy(alloc);
    }
    let given = ConSys::new(alloc, start.dims());
    let mut head = D::start(alloc, start, &given)?;
    let mut left = delay;
    loop {
        let (value, _) = D::value(alloc, &head)?;
        let mut next = value.copy(alloc)?;
        join_steps(alloc, &mut next, &value, steps)?;
        let mode = if left > 0 { Mode::Join } else { Mode::Widen };
        match D::grow(&mut head, &next, mode)? {
            Grown::Stable => return Ok(value),
            Grown::Grew(_) => left = left.saturating_sub(1),
        }
    }
}
