//! What a domain must guarantee to a report.

ghost use Rattle.std.specs.{List.AllByRecursion, Prelude.◌≡◌, Prelude.IfOk};
ghost use Rattle.lra_report_build.specs.Crates.lra_options.declared.options.Domain as options;
ghost use Rattle.lra_report.specs.{Report.Invariant, Spelled.IsSpelledPart};
ghost use Rattle.lra_report_build.specs.{Canonical.IsCanonicalState, Shown.IsShown};

use lra_octagon::Domain;
use lra_report::Part;
use std::alloc::{AllocError, Global};

/// A domain whose values a report shows.
pub trait Show: Domain {
    /// The domain as options name it.
    ghost named: { options.Domain };

    /// The state that a value is shown by.
    ghost shown: { Self → Invariant };

    /// The state of the value: a part for each of its parts, each as the domain has it and as its text states it. Of
    /// the lists with a number for each dimension it holds at the value's stores and at no other.
    fn show(&self, alloc: Global) -> Result<Vec<Part>, AllocError>
        ensures shown { IfOk result (λ s. s.items ≡ shown self.now) }
        ensures told { IfOk result (λ s. IsShown Self.abstraction named self.now s.items) }
        ensures spelled { IfOk result (λ s. AllByRecursion IsSpelledPart s.items) }
        ensures canonical { IfOk result (λ s. IsCanonicalState named (Self.abstraction.dims self.now) s.items) };
}
