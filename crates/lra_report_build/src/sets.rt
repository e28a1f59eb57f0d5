//! Sets of parts over any domain that is shown: the states of their parts, one after another.

ghost use Rattle.std.specs.{List.AllByRecursion, Prelude.◌≡◌, Prelude.flat_map, Prelude.IfOk};
ghost use Rattle.lra_report.specs.Spelled.{IsSpelledPart};
ghost use Rattle.lra_report_build.specs.{Canonical.AreCanonicallyShown, Shown.AreShown};

use crate::show::Show;
use lra_poly_domain::BaseDomain;
use lra_powerset::PowerSet;
use lra_report::Part;
use std::alloc::{AllocError, Global};

/// The states of all values, one after another.
fn states_in_turn<D: Show>(alloc: Global, values: &[D]) -> Result<Vec<Part>, AllocError>
    ensures shown { IfOk result (λ s. s.items ≡ flat_map D.shown values.now) }
    ensures told { IfOk result (λ _. AreShown D.abstraction D.named D.shown values.now) }
    ensures spelled { IfOk result (λ s. AllByRecursion IsSpelledPart s.items) }
    ensures canonical { IfOk result (λ _. AreCanonicallyShown D.named D.abstraction.dims D.shown values.now) }
{
    let mut state = Vec::new(alloc);
    'values: for value in values {
        state.append(&mut value.show(alloc)?)?;
    }
    Ok(state)
}

impl<D: Show + BaseDomain> Show for PowerSet<D> {
    ghost use Rattle.lra_report_build.specs.Sets.{shown_set};

    ghost named = { D.named };

    ghost shown = { shown_set D.shown };

    fn show(&self, alloc: Global) -> Result<Vec<Part>, AllocError> {
        states_in_turn(alloc, self.items())
    }
}
