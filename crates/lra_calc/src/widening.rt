//! Polyhedra that are widened by others in which they lie.

ghost use Rattle.std.specs.Prelude.{◌≡◌, ◌≤◌, ◌<◌, length, IfOk, IfErr, map, None};
ghost use Rattle.lra_script.specs.{LineForms.greatest_dims, Views.constraint_of};
ghost use Rattle.lra_calc.specs.MadeSets as sets;
ghost use Rattle.lra_calc.specs.Script as script;
ghost use Rattle.lra_calc.specs.Views.{made_of, Gives, NamesOutside, IsPlacedRefusal};

use crate::making::{Made, constraints_of_rows, make_with};
use crate::refusal::{Fault, LineError};
use crate::showing::generator_at;
use lra_poly_widening::{Poly, WidenError, limited, standard};
use lra_script::Constraint;
use std::alloc::Global;

/// Why the set was not widened, with its generator that is outside of the other.
fn tell_outside(alloc: Global, set: &Poly, error: WidenError) -> LineError
    requires few { set.now.dims ≤ greatest_dims }
    requires placed { IsPlacedRefusal (length set.now.generators) error }
    ensures { NamesOutside set.now error result }
{
    match error {
        WidenError::NotIncluded(place) => match generator_at(alloc, set, place) {
            Ok(generator) => LineError::Refused(Fault::NotIncluded(generator)),
            Err(_) => LineError::Memory,
        },
        WidenError::Memory => LineError::Memory,
    }
}

/// The first set widened by the second.
pub fn widen(alloc: Global, first: &Poly, second: &Poly) -> Result<Made, LineError>
    requires few { first.now.dims ≤ greatest_dims }
    requires dims { second.now.dims ≡ first.now.dims }
    ensures dims { IfOk result (λ m. m.polyhedron.dims ≡ first.now.dims) }
    ensures gives { Gives made_of result (script.Widens first.now.dims first.now second.now
        (sets.IsWidened first.now.dims first.now second.now)) }
{
    match standard(alloc, first, second) {
        Ok((polyhedron, outcome)) => Ok(make_with(polyhedron, outcome)),
        Err(error) => Err(tell_outside(alloc, first, error)),
    }
}

/// The first set widened by the second, with those of the given constraints that are valid on both.
pub fn limit(
    alloc: Global,
    first: &Poly,
    second: &Poly,
    given: &[Constraint],
) -> Result<Made, LineError>
    requires few { first.now.dims ≤ greatest_dims }
    requires dims { second.now.dims ≡ first.now.dims }
    requires widths { script.wrong_row first.now.dims (map constraint_of given.now) ≡ None }
    ensures dims { IfOk result (λ m. m.polyhedron.dims ≡ first.now.dims) }
    ensures gives { Gives made_of result (script.Widens first.now.dims first.now second.now
        (sets.IsLimited first.now.dims (map constraint_of given.now) first.now second.now)) }
{
    let given = constraints_of_rows(alloc, first.dims(), given)?;
    match limited(alloc, first, second, &given) {
        Ok((polyhedron, outcome)) => Ok(make_with(polyhedron, outcome)),
        Err(error) => Err(tell_outside(alloc, first, error)),
    }
}
