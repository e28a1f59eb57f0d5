//! What is left of a value if a variable lies within its type.

ghost use Rattle.std.specs.Prelude.{◌≡◌, ◌≤◌, IfOk, OnOk};
ghost use Rattle.lra_transfer.specs.Crates.lra_analysis_spec.LiveLimit.{most_live};
ghost use Rattle.lra_transfer.specs.Crates.lra_analysis_spec.MovesOf.{within_type};
ghost use Rattle.lra_transfer.specs.Crates.lra_base.declared.number_types.NumberType.TheVariants.{Int};
ghost use Rattle.lra_transfer.specs.Crates.lra_domain.Moves.{Moves};
ghost use Rattle.lra_transfer.specs.Changes.{Does};

use lra_linearize::{ConKind, Domain, Exactness, NumberType, Test, form_of_one, worse};
use std::alloc::{AllocError, Global};

/// What is left if the variable at the place lies within 32 bits, after what led to the value: `x + 2^31 >= 0`,
/// then `2^31 - 1 - x >= 0`.
fn hold_int<D: Domain>(
    alloc: Global,
    place: usize,
    value: &mut D,
    before: Exactness,
) -> Result<Exactness, AllocError>
    requires { D.abstraction.dims value.old ≤ most_live }
    ensures holds { IfOk result (λ a. (p : Moves) (v : D) → Does D.abstraction p v before value.old
        → Does D.abstraction (within_type Int (D.abstraction.dims value.old) place p) v a
        value.new) }
    ensures dims { OnOk result (D.abstraction.dims value.new ≡ D.abstraction.dims value.old) }
{
    let live = value.dims();
    let low = form_of_one(alloc, live, place, 1, 2_147_483_648)?;
    let above = Test {
        expr: low,
        kind: ConKind::Ge,
    };
    let one = value.test(&above)?;
    let high = form_of_one(alloc, live, place, -1, 2_147_483_647)?;
    let below = Test {
        expr: high,
        kind: ConKind::Ge,
    };
    let two = value.test(&below)?;
    Ok(worse(before, worse(one, two)))
}

/// What is left if the variable at the place has a number of this type, after what led to the value. Of a `long`
/// nothing is tested.
pub fn hold_type<D: Domain>(
    alloc: Global,
    number_type: NumberType,
    place: usize,
    value: &mut D,
    before: Exactness,
) -> Result<Exactness, AllocError>
    requires { D.abstraction.dims value.old ≤ most_live }
    ensures holds { IfOk result (λ a. (p : Moves) (v : D) → Does D.abstraction p v before value.old
        → Does D.abstraction (within_type number_type (D.abstraction.dims value.old) place p)
        v a value.new) }
    ensures dims { OnOk result (D.abstraction.dims value.new ≡ D.abstraction.dims value.old) }
{
    match number_type {
        NumberType::Long => Ok(before),
        NumberType::Int => hold_int(alloc, place, value, before),
    }
}
