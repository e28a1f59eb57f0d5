//! One text, one report.

ghost use Rattle.lra_report.specs.Crates.lra_syntax.Grammar.{Spells};
ghost use Rattle.lra_report.specs.{Spelled.OneText, Spelled.OneAcceptedText, Spelled.OneSourceText, View.report_of};

use crate::report::Report;

/// Two reports of one program under one list of options that have the same text are the same report: they have the same
/// rows, generators, verdicts and flag. Their lists are those of canonical descriptions, and their names can be
/// distinguished: in each accepted source they can.
pub fn one_text(first: &Report, second: &Report)
    ensures program { OneText (report_of first.now) (report_of second.now) }
    ensures accepted { OneAcceptedText (report_of first.now) (report_of second.now) }
    ensures source { OneSourceText Spells (report_of first.now) (report_of second.now) }
{}
