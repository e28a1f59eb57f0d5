//! The values of a domain as the states of a report.

ghost use Rattle.std.specs.{List.AllByRecursion, Prelude.◌≡◌, Prelude.map, Prelude.IfOk};
ghost use Rattle.lra_report.specs.Spelled.{IsSpelledPart};
ghost use Rattle.lra_report_build.specs.{Canonical.AreCanonicallyShown, Shown.AreShown};

use crate::show::Show;
use lra_report::Part;
use std::alloc::{AllocError, Global};

/// The states of all values in order.
pub fn states_of<D: Show>(alloc: Global, values: &[D]) -> Result<Vec<Vec<Part>>, AllocError>
    ensures shown { IfOk result (λ states. map (λ s. s.items) states.items ≡ map D.shown values.now) }
    ensures told { IfOk result (λ _. AreShown D.abstraction D.named D.shown values.now) }
    ensures spelled { IfOk result (λ states.
        AllByRecursion (AllByRecursion IsSpelledPart) (map (λ s. s.items) states.items)) }
    ensures canonical { IfOk result (λ _. AreCanonicallyShown D.named D.abstraction.dims D.shown values.now) }
{
    let mut states = Vec::new(alloc);
    'values: for value in values {
        states.push(value.show(alloc)?)?;
    }
    Ok(states)
}
