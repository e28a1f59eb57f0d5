//! What is judged of a whole program.

ghost use Rattle.std.specs.Prelude.{◌<◌, None, length, All, IfOk};
ghost use Rattle.lra_overflow_checks.specs.Crates.lra_analysis_spec.Fits.{Judges};
ghost use Rattle.lra_overflow_checks.specs.Crates.lra_analysis_spec.LiveLimit.{most_live};
ghost use Rattle.lra_overflow_checks.specs.Crates.lra_analysis_spec.Operations.{lossy_operations};
ghost use Rattle.lra_overflow_checks.specs.Crates.lra_operations.CheckedOperations.{computing_ops};
ghost use Rattle.lra_overflow_checks.specs.Crates.lra_operations.TreeViews.{node_view};
ghost use Rattle.lra_overflow_checks.specs.Judged.{AreBelow};

use crate::operations::OverflowCheck;
use crate::questions::find;
use lra_operations::Node;
use lra_transfer::Domain;
use std::alloc::{AllocError, Global};

/// What is judged at the points at which something is computed: the points' numbers in order, with whether all of it
/// fits; and the first flagged point, after all that the iteration flagged. Points are numbered from 0.
#[derive(Drop)]
pub struct OverflowVerdicts {
    pub verdicts: Vec<(usize, bool)>,
    pub flagged: Option<usize>,
}

/// Which operations of a tree fit, by the values at its points; after what is flagged so far.
pub fn judge<D: Domain>(
    alloc: Global,
    tree: &Node,
    values: &[D],
    flagged: Option<usize>,
) -> Result<OverflowVerdicts, AllocError>
    requires few { All (λ v. D.abstraction.dims v < most_live) values.now }
    requires below { AreBelow (length values.now) (computing_ops None (node_view tree.now)) }
    ensures { IfOk result
        (λ f. Judges D.abstraction (lossy_operations D.abstraction) (node_view tree.now)
        values.now flagged f.verdicts.items f.flagged) }
{
    let found = find::<D, OverflowCheck>(alloc, tree, values, flagged)?;
    Ok(OverflowVerdicts {
        verdicts: found.answers,
        flagged: found.flagged,
    })
}
