//! Parts of a state.

ghost use Rattle.std.specs.Prelude.{◌≡◌, [], MatchOption, length};
ghost use Rattle.lra_report.specs.Crates.lra_systems.LinearSystems.{FitKinds};
ghost use Rattle.lra_row_text.specs.Lists.{shown_rows, shown_generators};
ghost use Rattle.lra_report.specs.Rows.{optional_generators, FitOptionally, IsPartInRange};

use lra_row_text::{ConSys, GenSys};
use std::marker::Model;

/// A conjunction of rows, and over polyhedra its generators: a point's divisor is above 0, a ray and a line have 0
/// there.
pub struct Part {
    rows: ConSys,
    generators: Option<GenSys>,
}

impl Drop for Part {
    fn drop(self) {
        let Part {
            rows: _,
            generators: _,
        } = self;
    }
}

impl Model for Part {
    ghost use Rattle.lra_row_text.specs.Part as shown;
    ghost use Rattle.lra_row_text.specs.Lists.{shown_rows};
    ghost use Rattle.lra_report.specs.Rows.{optional_generators, FitOptionally};

    ghost Value = { shown.Part };

    ghost view = { λ p. record {
      rows = shown_rows p.rows.rows p.rows.kinds;
      generators = optional_generators p.generators;
    } };

    ghost invariant = { λ p. FitOptionally p.generators };
}

impl Part {
    /// A part of these rows and generators, none over boxes and octagons.
    #[tactic(auto, using(crate::proofs::RowRanges::rows_in_range))]
    pub fn new(rows: ConSys, generators: Option<GenSys>) -> Part
        requires { FitOptionally generators }
        ensures rows { result.rows ≡ shown_rows rows.rows rows.kinds }
        ensures generators { result.generators ≡ optional_generators generators }
        ensures in_range { IsPartInRange result }
    {
        let _listed = rows.rows(); // fact: the rows are in the range
        Part { rows, generators }
    }

    /// The rows, in order.
    pub fn rows(&self) -> &ConSys
        ensures { shown_rows result.now.rows result.now.kinds ≡ self.now.rows }
    {
        &self.rows
    }

    /// The generators, in order, if there is a list of them.
    pub fn generators(&self) -> Option<&GenSys>
        ensures shown { MatchOption result (self.now.generators ≡ [])
            (λ g. shown_generators g.now.rows g.now.kinds ≡ self.now.generators) }
        ensures fit { MatchOption result Unit (λ g. FitKinds g.now.rows g.now.kinds) }
    {
        match &self.generators {
            None => None,
            Some(generators) => Some(generators),
        }
    }
}
