//! What is taken of an analysis into a certificate.

ghost use Rattle.std.specs.List.{AllByRecursion};
ghost use Rattle.std.specs.Prelude.{◌≡◌, map, IfOk, Some, option_map};
ghost use Rattle.lra_certify_source.specs.Crates.lra_linear_spec.Polyhedra.{IsPolyhedron};
ghost use Rattle.lra_certify_source.specs.Crates.lra_verify.PointViews.{state_view};
ghost use Rattle.lra_certify_source.specs.Extraction.{state_by, dims_by, dims_in, proved_in};

use lra_analyse_source::Polyhedron;
use lra_report::ConSys;
use std::alloc::{AllocError, Global};

/// The rows of a value; none if it has no point.
fn state_of(value: &Polyhedron) -> Result<Option<ConSys>, AllocError>
    ensures state { IfOk result (λ s. state_view s ≡ state_by value.now) }
    ensures dims { IfOk result (λ s. dims_in s ≡ dims_by value.now) }
    ensures canonical { IsPolyhedron value.now }
{
    let rows = value.rows();
    if value.generators().kinds().is_empty() {
        Ok(None)
    } else {
        Ok(Some(rows.copy()?))
    }
}

/// The rows of each value, in order; none for a value without a point.
pub(crate) fn states_of(
    alloc: Global,
    values: &[Polyhedron],
) -> Result<Vec<Option<ConSys>>, AllocError>
    ensures states { IfOk result (λ v. map state_view v.items ≡ map state_by values.now) }
    ensures dims { IfOk result (λ v. map dims_in v.items ≡ map dims_by values.now) }
    ensures canonical { IfOk result (λ _. AllByRecursion IsPolyhedron values.now) }
{
    let mut states = Vec::new(alloc);
    'values: for value in values {
        states.push(state_of(value)?)?;
    }
    Ok(states)
}

/// The points of the assertions that are proved, in order.
pub(crate) fn proved_of(alloc: Global, verdicts: &[(usize, bool)]) -> Result<Vec<usize>, AllocError>
    ensures { IfOk result (λ v. v.items ≡ proved_in verdicts.now) }
{
    let mut proved = Vec::new(alloc);
    'verdicts: for verdict in verdicts {
        let (point, holds) = *verdict;
        if holds {
            proved.push(point)?;
        }
    }
    Ok(proved)
}
