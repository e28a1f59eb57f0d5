//! What is judged of the accesses of a whole program.

ghost use Rattle.std.specs.Prelude.{◌<◌, None, length, map, All, IfOk};
ghost use Rattle.lra_bounds_checks.specs.Crates.lra_analysis_spec.Accesses.{JudgesAccesses};
ghost use Rattle.lra_bounds_checks.specs.Crates.lra_analysis_spec.LiveLimit.{most_live};
ghost use Rattle.lra_bounds_checks.specs.Crates.lra_analysis_spec.Operations.{lossy_operations};
ghost use Rattle.lra_bounds_checks.specs.Crates.lra_base.AccessVerdicts.{reported_view};
ghost use Rattle.lra_bounds_checks.specs.Crates.lra_operations.CheckedOperations.{accessing_ops};
ghost use Rattle.lra_bounds_checks.specs.Crates.lra_operations.TreeViews.{node_view};
ghost use Rattle.lra_overflow_checks.specs.Judged.{AreBelow};

use crate::access_checks::BoundsCheck;
use lra_domain::Domain;
use lra_operations::Node;
use lra_overflow_checks::find;
use lra_program::Place;
use std::alloc::{AllocError, Global};

/// What is judged at the points at which arrays are accessed: the points' numbers in order, each with what is reported
/// about its accesses in the order of their evaluation, the place where the array is named and whether the access is
/// inside; and the first flagged point, after all that is flagged so far.
#[derive(Drop)]
pub struct BoundsVerdicts {
    pub verdicts: Vec<(usize, Vec<(Place, bool)>)>,
    pub flagged: Option<usize>,
}

/// Which accesses of a tree are inside, by the values at its points; after what is flagged so far.
pub fn judge_accesses<D: Domain>(
    alloc: Global,
    tree: &Node,
    values: &[D],
    flagged: Option<usize>,
) -> Result<BoundsVerdicts, AllocError>
    requires few { All (λ v. D.abstraction.dims v < most_live) values.now }
    requires below { AreBelow (length values.now) (accessing_ops None (node_view tree.now)) }
    ensures { IfOk result
        (λ i. JudgesAccesses D.abstraction (lossy_operations D.abstraction) (node_view tree.now)
        values.now flagged (map reported_view i.verdicts.items) i.flagged) }
{
    let found = find::<D, BoundsCheck>(alloc, tree, values, flagged)?;
    Ok(BoundsVerdicts {
        verdicts: found.answers,
        flagged: found.flagged,
    })
}
