//! Laws: each of these does nothing, and its contract is the theorem.

ghost use Rattle.lra_analyse_source.specs.Crates.lra_analysis_spec.Linear.{FormsAreRight, TestsAreRight};
ghost use Rattle.lra_analyse_source.specs.Crates.lra_analysis_spec.Linear.{DiffersIsRight};
ghost use Rattle.lra_analyse_source.specs.Crates.lra_analysis_spec.Linearization.{LinearizationIsRight};
ghost use Rattle.lra_analyse_source.specs.Claims.{OneAnsweredText, TreesFit, TreesAreNumbered, AnalysedAreSound};
ghost use Rattle.lra_analyse_source.specs.Claims.{AnalysedAreReports, OneUnflaggedReport};
ghost use Rattle.lra_analyse_source.specs.Soundness.{SolvedAreSound, FittingIsSound, AccessesAreSound};

use lra_front_end::{one_answer, one_constants};
use lra_poly_domain::Domain;

/// Two reports that answer one source under one list of options and have the same text are the same report.
pub fn one_answered_text()
    ensures { OneAnsweredText }
{
    one_answer();
}

/// Two reports that answer one source under one list of options, neither of them flagged, are the same report.
pub fn one_unflagged_report()
    ensures { OneUnflaggedReport }
{
    one_answer();
    one_constants();
}

/// The tree of operations of a well-formed program fits the iteration, and has each point once.
pub fn trees_fit()
    ensures fit { TreesFit }
    ensures numbered { TreesAreNumbered }
{}

/// What a report says of an analysis over a domain holds in all runs. The report is one of its source if the options
/// name that domain and allow as many parts as the analysis had.
pub fn analyses_are_right<D: Domain>()
    ensures sound { AnalysedAreSound D.abstraction }
    ensures reports { AnalysedAreReports D.abstraction }
{}

/// What an iteration over a domain finds, of a program whose first values are numbers of their types, holds in all
/// runs.
pub fn solved_are_sound<D: Domain>()
    ensures { SolvedAreSound D.abstraction }
{}

/// If all that is computed at a point is judged to fit, no run stops there by a number.
pub fn fitting_is_sound<D: Domain>()
    ensures { FittingIsSound D.abstraction }
{}

/// If an access is judged to be inside its array, no run evaluates it outside.
pub fn accesses_are_sound<D: Domain>()
    ensures { AccessesAreSound D.abstraction }
{}

/// Linear forms have the value of their expressions wherever it exists, and so has what is seen of divisions, over the
/// quotient and what it leaves; tests pass exactly if their comparisons are true.
pub fn forms_are_right()
    ensures forms { FormsAreRight }
    ensures seen { LinearizationIsRight }
    ensures tests { TestsAreRight }
    ensures differs { DiffersIsRight }
{}
