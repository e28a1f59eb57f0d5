//! Polyhedra, shown by their constraints and their generators.

ghost use Rattle.std.specs.{List.AllByRecursion, Prelude.◌≡◌, Prelude.IfOk};
ghost use Rattle.lra_report_build.specs.Crates.lra_options.declared.options.Domain.TheVariants as options;
ghost use Rattle.lra_report_build.specs.Crates.lra_linear_spec.Polyhedra.{IsPolyhedron};
ghost use Rattle.lra_report_build.specs.Crates.lra_linear_spec.Representable.{IsRepresentable};
ghost use Rattle.lra_report_build.specs.Crates.lra_systems.LinearSystems.{FitKinds};
ghost use Rattle.lra_report.specs.Spelled.{IsSpelledPart};
ghost use Rattle.lra_report_build.specs.Canonical.{IsCanonicalState};
ghost use Rattle.lra_report_build.specs.Polyhedra.{shown_polyhedron, ShowsPolyhedron, polyhedron_of};

use crate::show::Show;
use lra_poly_domain::Polyhedron;
use lra_report::Part;
use lra_row_text::{ConSys, GenSys};
use std::alloc::{AllocError, Global};

/// The state of a polyhedron, given by its canonical lists: no part if there is no point, else one part that has
/// both lists.
fn polyhedron_state(
    alloc: Global,
    rows: &ConSys,
    generators: &GenSys,
) -> Result<Vec<Part>, AllocError>
    requires dims { generators.now.dims ≡ rows.now.dims }
    requires fit { FitKinds generators.now.rows generators.now.kinds }
    requires canonical { IsPolyhedron (polyhedron_of rows.now generators.now) }
    requires formed { IsRepresentable (polyhedron_of rows.now generators.now) }
    ensures shown { IfOk result (λ s. s.items ≡ shown_polyhedron (polyhedron_of rows.now generators.now)) }
    ensures told { IfOk result (λ s. ShowsPolyhedron (polyhedron_of rows.now generators.now) s.items) }
    ensures spelled { IfOk result (λ s. AllByRecursion IsSpelledPart s.items) }
    ensures canonical { IfOk result (λ s. IsCanonicalState options.Poly rows.now.dims s.items) }
{
    let (_rows, _generators) = (rows.rows(), generators.rows()); // fact: both lists are in the range
    if generators.kinds().is_empty() {
        return Ok(Vec::new(alloc));
    }
    let mut state = Vec::new(alloc);
    state.push(Part::new(rows.copy()?, Some(generators.copy()?)))?;
    Ok(state)
}

impl Show for Polyhedron {
    ghost named = { options.Poly };

    ghost shown = { shown_polyhedron };

    fn show(&self, alloc: Global) -> Result<Vec<Part>, AllocError> {
        polyhedron_state(alloc, self.rows(), self.generators())
    }
}
