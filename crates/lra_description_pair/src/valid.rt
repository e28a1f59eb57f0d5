//! Constraints that hold at each of the generators.

ghost use Rattle.std.specs.Prelude.{◌≡◌, ◌≢◌, [], ◌<◌, IfOk};
ghost use Rattle.lra_description_pair.specs.Crates.lra_systems.Dimensions.{too_many_dimensions};
ghost use Rattle.lra_description_pair.specs.Crates.lra_systems.LinearSystems.{constraints};
ghost use Rattle.lra_cone.specs.Cones.{IsCone};
ghost use Rattle.lra_descriptions.specs.ShownLists.{ShowsValid, ShowsConstraints};

use lra_cone::{ConKind, ConSys, Conversion};
use lra_descriptions::{constraint_list, unit, valid_rows};
use std::alloc::{AllocError, Global};

/// The constraints of the cone; after a loss those of its lines and rays that are seen to be valid on all rows, which
/// were to be added.
pub fn valid_list(
    alloc: Global,
    conversion: &Conversion,
    rows: &ConSys,
) -> Result<ConSys, AllocError>
    requires small { rows.now.dims < too_many_dimensions }
    requires dims { conversion.now.cone.dims ≡ rows.now.dims }
    ensures cone { IsCone conversion.now.cone }
    ensures dims { IfOk result (λ list. list.dims ≡ rows.now.dims) }
    ensures exact { conversion.now.losses.items ≡ [] →
        IfOk result (ShowsConstraints rows.now.dims conversion.now.cone.lines conversion.now.cone.rays) }
    ensures valid { conversion.now.losses.items ≢ [] →
        IfOk result (ShowsValid rows.now.dims conversion.now.cone.lines conversion.now.cone.rays
        (constraints rows.now)) }
{
    let n = rows.dims();
    let (lines, rays) = (conversion.cone.lines(), conversion.cone.rays());
    let positivity = unit(alloc, n, 0)?;
    if conversion.losses.is_empty() {
        return constraint_list(alloc, lines, rays, &positivity, n);
    }
    let valid_lines = valid_rows(alloc, lines, ConKind::Eq, rows)?;
    let valid_rays = valid_rows(alloc, rays, ConKind::Ge, rows)?;
    constraint_list(alloc, &valid_lines, &valid_rays, &positivity, n)
}
