//! The global variables at their first values, with which an iteration begins.

ghost use Rattle.std.specs.Prelude.{◌≡◌, ◌+◌, ◌<◌, ◌≤◌, suc, length, IfOk, OnOk};
ghost use Rattle.lra_transfer.specs.Crates.lra_analysis_spec.Linear.{constant_form};
ghost use Rattle.lra_transfer.specs.Crates.lra_analysis_spec.LiveLimit.{most_live};
ghost use Rattle.lra_transfer.specs.Crates.lra_analysis_spec.MovesOf.{within_type, append_set, first_values};
ghost use Rattle.lra_transfer.specs.Crates.lra_analysis_spec.declared.linearization.Linearized.TheVariants.{Linear};
ghost use Rattle.lra_transfer.specs.Changes.{Does};

use crate::types::hold_type;
use lra_linearize::{Domain, Exactness, constant_of, worse};
use lra_program::GlobalVariable;
use std::alloc::{AllocError, Global};

/// A new variable, with the global's first value.
fn append_global<D: Domain>(
    alloc: Global,
    global: &GlobalVariable,
    value: &mut D,
) -> Result<Exactness, AllocError>
    requires { D.abstraction.dims value.old < most_live }
    ensures appends { IfOk result (λ a. Does D.abstraction (within_type global.now.number_type
        (suc (D.abstraction.dims value.old)) (D.abstraction.dims value.old)
        (append_set (D.abstraction.dims value.old)
        (Linear (constant_form (suc (D.abstraction.dims value.old)) global.now.value))))
        value.old a value.new) }
    ensures dims { OnOk result (D.abstraction.dims value.new ≡ suc (D.abstraction.dims value.old)) }
{
    let place = value.dims();
    let one = value.embed(1)?;
    let form = constant_of(alloc, place + 1, &global.value)?;
    let two = value.assign(place, &form)?;
    let held = hold_type(alloc, global.number_type, place, value, worse(one, two))?;
    Ok(held)
}

/// The global variables, each with its first value.
pub fn append_globals<D: Domain>(
    alloc: Global,
    globals: &[GlobalVariable],
    value: &mut D,
) -> Result<Exactness, AllocError>
    requires { D.abstraction.dims value.old + length globals.now ≤ most_live }
    ensures appends { IfOk result (λ a. Does D.abstraction
        (first_values (D.abstraction.dims value.old) globals.now) value.old a value.new) }
    ensures dims { OnOk result (D.abstraction.dims value.new ≡ D.abstraction.dims value.old + length globals.now) }
{
    let Some((first, later)) = globals.split_first() else {
        return Ok(Exactness::Exact);
    };
    let one = append_global(alloc, first, value)?;
    let others = append_globals(alloc, later, value)?;
    Ok(worse(one, others))
}
