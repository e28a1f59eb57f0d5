//! One JSON text, one report.

ghost use Rattle.lra_report_json.specs.Crates.lra_syntax.Grammar.{Spells};
ghost use Rattle.lra_report_json.specs.OneJson.{OneSourceJson};
ghost use Rattle.lra_report.specs.View.{report_of};

use lra_report::Report;

/// Two reports of one source under one list of options that have the same JSON are the same report: they have the same
/// rows, generators, verdicts and flag. Their lists are those of canonical descriptions.
pub fn one_json(first: &Report, second: &Report)
    ensures { OneSourceJson Spells (report_of first.now) (report_of second.now) }
{}
