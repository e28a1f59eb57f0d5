//! A gas burner leaks for a second at a time, and then not for 30. Does it ever, from a minute on, leak more than a
//! twentieth of the time?

ghost use Rattle.std.specs.Prelude.{◌≡◌, ℤ, List, [], ◌∷◌, IfOk, length, map, pos};
ghost use Rattle.guzhtarel.specs.Domains.Actions.{assign, test};
ghost use Rattle.guzhtarel.specs.Domains.Changes.{AllReturn, action_of, actions_of, actions_of_steps};
ghost use Rattle.use_reach.specs.Burner.{beginning, leaking, pausing, too_much};
ghost use Rattle.use_reach.specs.Runs.{IsGiven, Reaches};

use crate::safety::{Answer, reach};
use guzhtarel::{Backward, Change, ConKind, LinExpr, Names, Test, value_text};
use std::alloc::{AllocError, Global};

/// `x = constant + a*time + b*leak + c*pause`
fn set_to(alloc: Global, x: usize, constant: i64, factors: &[i64; 3]) -> Result<Change, AllocError>
    ensures { IfOk result (λ change. action_of change ≡
        assign x (record { constant = constant; coefficients = factors.now })) }
{
    Ok(Change::Assign(x, LinExpr::new(alloc, constant, factors)?))
}

/// `constant + a*time + b*leak + c*pause >= 0`
fn at_least(alloc: Global, constant: i64, factors: &[i64; 3]) -> Result<Change, AllocError>
    ensures { IfOk result (λ change. action_of change ≡
        test ConKind.Ge (record { constant = constant; coefficients = factors.now })) }
{
    let expr = LinExpr::new(alloc, constant, factors)?;
    let kind = ConKind::Ge;
    Ok(Change::Test(Test { expr, kind }))
}

/// Nothing has leaked yet, and it may at once.
fn first(alloc: Global) -> Result<Vec<Change>, AllocError>
    ensures { IfOk result (λ step. actions_of step.items ≡ beginning) }
{
    let time = set_to(alloc, 0, 0, &[0, 0, 0])?;
    let leak = set_to(alloc, 1, 0, &[0, 0, 0])?;
    let pause = set_to(alloc, 2, 30, &[0, 0, 0])?;
    Ok(vec![in alloc; time, leak, pause]?)
}

/// A second of leak.
fn leak(alloc: Global) -> Result<Vec<Change>, AllocError>
    ensures { IfOk result (λ step. actions_of step.items ≡ leaking) }
{
    let paused = at_least(alloc, -30, &[0, 0, 1])?;
    let time = set_to(alloc, 0, 1, &[1, 0, 0])?;
    let leak = set_to(alloc, 1, 1, &[0, 1, 0])?;
    let pause = set_to(alloc, 2, 0, &[0, 0, 0])?;
    Ok(vec![in alloc; paused, time, leak, pause]?)
}

/// One without.
fn pause(alloc: Global) -> Result<Vec<Change>, AllocError>
    ensures { IfOk result (λ step. actions_of step.items ≡ pausing) }
{
    let time = set_to(alloc, 0, 1, &[1, 0, 0])?;
    let pause = set_to(alloc, 2, 1, &[0, 0, 1])?;
    Ok(vec![in alloc; time, pause]?)
}

/// From a minute on, more than a twentieth of the time.
fn bad(alloc: Global) -> Result<Vec<Change>, AllocError>
    ensures { IfOk result (λ step. actions_of step.items ≡ too_much) }
{
    let late = at_least(alloc, -60, &[1, 0, 0])?;
    let much = at_least(alloc, -1, &[-1, 20, 0])?;
    Ok(vec![in alloc; late, much]?)
}

/// Whether it leaks too much, and the value that was found to decide it.
pub fn leaks<D: Backward>(alloc: Global) -> Result<(Answer, D), AllocError>
    ensures dims { IfOk result (λ r. D.abstraction.dims r.1 ≡ 3) }
    ensures safe { IfOk result (λ r. r.0 ≡ Answer.Safe → (s t : List ℤ) → IsGiven 3 beginning s →
        Reaches (leaking ∷ pausing ∷ []) s t → ¬ IsGiven 3 too_much t) }
{
    let begin = first(alloc)?;
    let steps = vec![in alloc; leak(alloc)?, pause(alloc)?]?;
    let end = bad(alloc)?;
    let found = reach::<D>(
        alloc,
        3,
        begin.as_slice(),
        steps.as_slice(),
        end.as_slice(),
        2,
    )?;
    Ok(found)
}

/// The invariant's rows and the answer.
pub fn describe<D: Backward>(alloc: Global, names: &Names) -> Result<String, AllocError>
    requires { length names.now ≡ 3 }
{
    let (answer, found) = leaks::<D>(alloc)?;
    let parts = found.parts(alloc)?;
    let shown = value_text(alloc, parts.as_slice(), names)?;
    let word = match answer {
        Answer::Safe => "safe",
        Answer::Unknown => "unknown",
    };
    format!(in alloc; "{shown}{word}\n")
}
