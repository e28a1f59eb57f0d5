//! Domains whose values are shown by their rows alone.

ghost use Rattle.std.specs.{List.AllByRecursion, Prelude.◌≡◌, Prelude.IfOk};
ghost use Rattle.lra_report_build.specs.Crates.lra_options.declared.options.Domain.TheVariants as options;
ghost use Rattle.lra_report_build.specs.Crates.lra_box.Abstraction.{box_abstraction};
ghost use Rattle.lra_octagon.specs.Abstraction.{octagon_abstraction};
ghost use Rattle.lra_report.specs.Rows.{IsPartInRange};
ghost use Rattle.lra_report_build.specs.Shown.{shown_state, MeansValue};

use crate::show::Show;
use lra_octagon::{Boxes, Octagon};
use lra_poly_domain::ExactParts;
use lra_report::Part;
use std::alloc::{AllocError, Global};

/// The parts of a value, without generators; they mean the value.
#[tactic(auto, using(crate::proofs::StateSteps::pushed, crate::proofs::RowsHold::state_means))]
fn parts_by_rows<D: ExactParts>(alloc: Global, value: &D) -> Result<Vec<Part>, AllocError>
    ensures shown { IfOk result (λ s. s.items ≡ shown_state D.abstraction value.now) }
    ensures mean { IfOk result (λ s. MeansValue D.abstraction value.now s.items) }
    ensures in_range { IfOk result (λ s. AllByRecursion IsPartInRange s.items) }
{
    value.parts_are_exact();
    let mut state = Vec::new(alloc);
    'each: for part in value.parts(alloc)? {
        state.push(Part::new(part, None))?;
    }
    Ok(state)
}

impl Show for Boxes {
    ghost named = { options.Box };

    ghost shown = { shown_state box_abstraction };

    fn show(&self, alloc: Global) -> Result<Vec<Part>, AllocError> {
        parts_by_rows(alloc, self)
    }
}

impl Show for Octagon {
    ghost named = { options.Oct };

    ghost shown = { shown_state octagon_abstraction };

    fn show(&self, alloc: Global) -> Result<Vec<Part>, AllocError> {
        parts_by_rows(alloc, self)
    }
}
