//! Conversions of lists of constraints and of generators.

ghost use Rattle.std.specs.List.{Contains};
ghost use Rattle.std.specs.Prelude.{◌≡◌, ◌≢◌, [], suc, map, ◌<◌, IfOk};
ghost use Rattle.lra_conversions.specs.Crates.lra_linear_spec.Descriptions.{LinearRow, Con, Gen};
ghost use Rattle.lra_conversions.specs.Crates.lra_linear_spec.OperationStrain.{with_positivity};
ghost use Rattle.lra_conversions.specs.Crates.lra_linear_spec.Points.{IsWithin, SameSet};
ghost use Rattle.lra_conversions.specs.Crates.lra_linear_spec.Strain.{Strains};
ghost use Rattle.lra_conversions.specs.Crates.lra_systems.Dimensions.{too_many_dimensions};
ghost use Rattle.lra_conversions.specs.Crates.lra_systems.LinearSystems.{constraints, generators, FitKinds};
ghost use Rattle.lra_descriptions.specs.ShownLists.{AreGeneratorsOf, AreConstraintsOf, dual_kind};
ghost use Rattle.lra_cone.specs.{Cones.ConeContent, Conversions.AreTried, Conversions.IsConversion, Losses.IfLost};
ghost use Rattle.lra_description_pair.specs.TakenPoints.{AreTaken};

use lra_cone::{ConSys, Cone, Conversion, Loss, positive_cone, take_rows};
use lra_description_pair::valid_list;
use lra_descriptions::{
    GenSys, TOO_MANY_DIMENSIONS, dual_rows, generator_list, has_point, nothing,
};
use std::alloc::{AllocError, Global};

/// The rows kept, their points, rays and lines, and the rows left out. The positivity row is taken first, then the rows
/// in their order; one with which a number passes the range, or the cone has too many rays, is left out. The two lists
/// have the same points: without a loss those of the list given, else at least those. Generators are in canonical
/// order; there are none if there is no point (Chernikova 1965, Fukuda and Prodon 1996).
pub fn generate(alloc: Global, rows: &ConSys) -> Result<(ConSys, GenSys, Vec<Loss>), AllocError>
    ensures dims { IfOk result (λ r. (r.0.dims ≡ rows.now.dims) × (r.1.dims ≡ rows.now.dims)) }
    ensures points { IfOk result (λ r. SameSet rows.now.dims (Con (constraints r.0)) (Gen (generators r.1))) }
    ensures exact { IfOk result (λ r. r.2.items ≡ [] → constraints r.0 ≡ constraints rows.now) }
    ensures among { IfOk result
        (λ r. (g : LinearRow) → Contains (constraints r.0) g → Contains (constraints rows.now) g) }
    ensures strain { IfOk result (λ r.
        IfLost (Strains (suc rows.now.dims) (with_positivity rows.now.dims (constraints rows.now))) r.2.items) }
    ensures canonical { IfOk result (λ r. AreGeneratorsOf rows.now.dims (constraints r.0) (generators r.1)) }
    ensures kinds { IfOk result (λ r. FitKinds r.1.rows r.1.kinds) }
    ensures tried { IfOk result (λ r. AreTried (suc rows.now.dims) (with_positivity rows.now.dims [])
        (constraints rows.now) (constraints r.0) r.2.items) }
{
    let n = rows.dims();
    if n >= TOO_MANY_DIMENSIONS {
        return Err(AllocError);
    }
    let conversion = take_rows(alloc, positive_cone(alloc, n)?, rows)?;
    let (lines, rays) = (conversion.cone.lines(), conversion.cone.rays());
    let generators = generator_list(alloc, n, lines, rays)?;
    let Conversion {
        cone: _,
        kept,
        losses,
    } = conversion;
    Ok((kept, generators, losses))
}

// The generators as rows, and the cone of what is valid on those that were added.
fn take_generators(alloc: Global, given: &GenSys) -> Result<(ConSys, Conversion), AllocError>
    requires { given.now.dims < too_many_dimensions }
    ensures dims { IfOk result (λ r. (r.0.dims ≡ given.now.dims) × (r.1.cone.dims ≡ given.now.dims)) }
    ensures rows { IfOk result (λ r. r.0.rows ≡ given.now.rows) }
    ensures kinds { IfOk result (λ r. r.0.kinds ≡ map dual_kind given.now.kinds) }
    ensures taken { IfOk result (λ r.
        IsConversion [] (constraints r.0) (constraints r.1.kept) r.1.cone r.1.losses.items) }
{
    let rows = dual_rows(alloc, given)?;
    let whole = Cone::whole(alloc, given.dims())?;
    let conversion = take_rows(alloc, whole, &rows)?;
    Ok((rows, conversion))
}

/// The constraints of the generators, and the generators that were not added. With such a one a number passes the
/// range, or there are too many constraints; it counts none the less: of the constraints found without it those stay
/// that are valid on it. Without a loss the constraints are in canonical order and have the same points, else at least
/// those; if there is no point, the one constraint is -1 >= 0.
pub fn constrain(alloc: Global, given: &GenSys) -> Result<(ConSys, Vec<Loss>), AllocError>
    requires { FitKinds given.now.rows given.now.kinds }
    ensures dims { IfOk result (λ r. r.0.dims ≡ given.now.dims) }
    ensures exact { IfOk result (λ r. r.1.items ≡ [] →
        SameSet given.now.dims (Con (constraints r.0)) (Gen (generators given.now))) }
    ensures within { IfOk result (λ r. IsWithin given.now.dims (Gen (generators given.now)) (Con (constraints r.0))) }
    ensures strain { IfOk result (λ r. IfLost (Strains (suc given.now.dims) (generators given.now)) r.1.items) }
    ensures canonical { IfOk result (λ r. r.1.items ≡ [] →
        AreConstraintsOf given.now.dims (generators given.now) (constraints r.0)) }
    ensures taken { IfOk result (λ r. r.1.items ≢ [] →
        (cone : ConeContent) × AreTaken given.now.dims (generators given.now) r.0 cone r.1.items) }
{
    let n = given.dims();
    if n >= TOO_MANY_DIMENSIONS {
        return Err(AllocError);
    }
    if !has_point(given.kinds()) {
        return Ok((nothing(alloc, n)?, Vec::new(alloc)));
    }
    let (rows, conversion) = take_generators(alloc, given)?;
    let list = valid_list(alloc, &conversion, &rows)?;
    let Conversion {
        cone: _,
        kept: _,
        losses,
    } = conversion;
    Ok((list, losses))
}
