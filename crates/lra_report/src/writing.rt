//! The text of a report.

ghost use Rattle.std.specs.List.{flat_map};
ghost use Rattle.std.specs.Prelude.{◌≡◌, ◌++◌, map, OnOk, IfOk, string_bytes};
ghost use Rattle.lra_row_text.specs.Texts.{part_text};
ghost use Rattle.lra_options.specs.OptionRows.{number_options, flag_options};
ghost use Rattle.lra_report.specs.ReportText as written;
ghost use Rattle.lra_report.specs.View.{point_report_of, verdict_of, report_of};

use crate::part::Part;
use crate::report::{PointReport, Report, Verdict, count_proved, count_unknown};
use lra_base::Place;
use lra_options::{FLAG_OPTIONS, FlagOption, NUMBER_OPTIONS, NumberOption, Options};
use lra_row_text::{Names, push_generators, push_rows};
use std::alloc::{AllocError, Global};

/// Appends the lines of a part.
fn push_part(text: &mut String, alloc: Global, part: &Part, names: &Names) -> Result<(), AllocError>
    ensures { OnOk result (string_bytes text.new ≡ string_bytes text.old ++ part_text names.now part.now) }
{
    push_rows(text, alloc, part.rows(), names)?;
    match part.generators() {
        None => Ok(()),
        Some(generators) => push_generators(
            text,
            alloc,
            generators.rows(),
            generators.kinds(),
            names,
        ),
    }
}

/// Appends the lines of the parts after the first.
fn push_further_parts(
    text: &mut String,
    alloc: Global,
    parts: &[Part],
    names: &Names,
) -> Result<(), AllocError>
    ensures { OnOk result (string_bytes text.new ≡ string_bytes text.old ++
        written.further_parts_text names.now parts.now) }
{
    for part in parts {
        writeln!(text, "  or")?;
        push_part(text, alloc, part, names)?;
    }
    Ok(())
}

/// Appends the lines of a state.
fn push_state(
    text: &mut String,
    alloc: Global,
    state: &[Part],
    names: &Names,
) -> Result<(), AllocError>
    ensures { OnOk result (string_bytes text.new ≡ string_bytes text.old ++ written.state_text names.now state.now) }
{
    match state.split_first() {
        None => writeln!(text, "  unreachable"),
        Some((first, further)) => {
            push_part(text, alloc, first, names)?;
            push_further_parts(text, alloc, further, names)
        }
    }
}

/// Appends what the lines of a point and of a verdict begin with.
fn push_heading(
    text: &mut String,
    word: &str,
    number: u32,
    path: &str,
    place: Place,
) -> Result<(), AllocError>
    ensures { OnOk result (string_bytes text.new ≡ string_bytes text.old ++
        written.heading_text word.now number path.now place) }
{
    let line = place.line;
    let column = place.column;
    write!(text, "{word} {number} {path} {line}:{column}")
}

/// Appends the lines of a point.
fn push_point(text: &mut String, alloc: Global, point: &PointReport) -> Result<(), AllocError>
    ensures { OnOk result (string_bytes text.new ≡ string_bytes text.old ++
        written.point_text (point_report_of point.now)) }
{
    push_heading(
        text,
        "point",
        point.number,
        point.path.as_str(),
        point.place,
    )?;
    text.push_str("\n")?;
    push_state(text, alloc, point.state.as_slice(), &point.names)
}

/// Appends the line of a verdict.
fn push_verdict(text: &mut String, verdict: &Verdict) -> Result<(), AllocError>
    ensures { OnOk result (string_bytes text.new ≡ string_bytes text.old ++
        written.verdict_text (verdict_of verdict.now)) }
{
    push_heading(
        text,
        verdict.kind.word(),
        verdict.number,
        verdict.path.as_str(),
        verdict.place,
    )?;
    let outcome = verdict.kind.outcome(verdict.holds);
    writeln!(text, " {outcome}")
}

/// Appends the lines of the points.
pub fn push_points(
    text: &mut String,
    alloc: Global,
    points: &[PointReport],
) -> Result<(), AllocError>
    ensures { OnOk result (string_bytes text.new ≡ string_bytes text.old ++
        flat_map written.point_text (map point_report_of points.now)) }
{
    for point in points {
        push_point(text, alloc, point)?;
    }
    Ok(())
}

/// Appends the lines of the verdicts.
pub fn push_verdicts(text: &mut String, verdicts: &[Verdict]) -> Result<(), AllocError>
    ensures { OnOk result (string_bytes text.new ≡ string_bytes text.old ++
        flat_map written.verdict_text (map verdict_of verdicts.now)) }
{
    for verdict in verdicts {
        push_verdict(text, verdict)?;
    }
    Ok(())
}

/// Appends what is reported about an option that is a number.
fn push_number_option(
    text: &mut String,
    options: Options,
    option: NumberOption,
) -> Result<(), AllocError>
    ensures { OnOk result (string_bytes text.new ≡ string_bytes text.old ++
        written.number_text options option) }
{
    if !option.is_reported(options) {
        return Ok(());
    }
    let name = option.name();
    let value = option.value(options);
    write!(text, " {name} {value}")
}

/// Appends what is reported about the options that are numbers.
fn push_number_options(text: &mut String, options: Options) -> Result<(), AllocError>
    ensures { OnOk result (string_bytes text.new ≡ string_bytes text.old ++
        flat_map (written.number_text options) number_options) }
{
    for option in NUMBER_OPTIONS.iter() {
        push_number_option(text, options, *option)?;
    }
    Ok(())
}

/// Appends what is reported about an option that is a flag.
fn push_flag_option(
    text: &mut String,
    options: Options,
    option: FlagOption,
) -> Result<(), AllocError>
    ensures { OnOk result (string_bytes text.new ≡ string_bytes text.old ++
        written.flag_option_text options option) }
{
    if !option.is_reported(options) {
        return Ok(());
    }
    let name = option.name();
    let word = if option.value(options) { "yes" } else { "no" };
    write!(text, " {name} {word}")
}

/// Appends what is reported about the options that are flags.
fn push_flag_options(text: &mut String, options: Options) -> Result<(), AllocError>
    ensures { OnOk result (string_bytes text.new ≡ string_bytes text.old ++
        flat_map (written.flag_option_text options) flag_options) }
{
    for option in FLAG_OPTIONS.iter() {
        push_flag_option(text, options, *option)?;
    }
    Ok(())
}

/// Appends the line of the options.
fn push_options(text: &mut String, options: Options) -> Result<(), AllocError>
    ensures { OnOk result (string_bytes text.new ≡ string_bytes text.old ++ written.options_text options) }
{
    let domain = options.domain.name();
    write!(text, "analysis {domain}")?;
    push_number_options(text, options)?;
    push_flag_options(text, options)?;
    text.push_str("\n")
}

/// Appends the line of the flag.
pub fn push_flag(text: &mut String, flagged: Option<u32>) -> Result<(), AllocError>
    ensures { OnOk result (string_bytes text.new ≡ string_bytes text.old ++ written.flag_text flagged) }
{
    match flagged {
        None => writeln!(text, "flagged 0"),
        Some(number) => writeln!(text, "flagged at point {number}"),
    }
}

/// Appends the last line, which counts the verdicts.
pub fn push_counts(text: &mut String, verdicts: &[Verdict]) -> Result<(), AllocError>
    ensures { OnOk result (string_bytes text.new ≡ string_bytes text.old ++
        written.counts_line (map verdict_of verdicts.now)) }
{
    let proved = count_proved(verdicts);
    let unknown = count_unknown(verdicts);
    writeln!(text, "verdicts proved {proved} unknown {unknown}")
}

/// The text of a report.
pub fn text(alloc: Global, report: &Report) -> Result<String, AllocError>
    ensures { IfOk result (λ shown. string_bytes shown ≡ written.report_text (report_of report.now)) }
{
    let mut text = String::new(alloc);
    push_options(&mut text, report.options)?;
    push_flag(&mut text, report.flagged)?;
    push_points(&mut text, alloc, report.points.as_slice())?;
    push_verdicts(&mut text, report.verdicts.as_slice())?;
    push_counts(&mut text, report.verdicts.as_slice())?;
    Ok(text)
}
