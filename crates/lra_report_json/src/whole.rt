//! A whole report.

ghost use Rattle.std.specs.{List.list_any, Prelude.◌≡◌, Prelude.IfOk, Prelude.fold};
ghost use Rattle.serde_json.specs.View.{members_view, view};
ghost use Rattle.lra_options.specs.OptionRows.{number_options, flag_options};
ghost use Rattle.lra_report_json.specs.ReportJson.{counts_of, fixed_members, flag_data, is_under, natural};
ghost use Rattle.lra_report_json.specs.ReportJson.{options_data, report_data, report_json, with_flag, with_number};
ghost use Rattle.lra_report_json.specs.ReportJson.{with_verdicts};
ghost use Rattle.lra_report.specs.View.{report_of};

use crate::object::Object;
use crate::parts::{point_values, verdict_values};
use lra_options::{FLAG_OPTIONS, FlagOption, NUMBER_OPTIONS, NumberOption, Options};
use lra_report::{Report, VERDICT_KINDS, VerdictKind};
use serde_json::Value;
use std::alloc::{AllocError, Global};

/// The object with an option that is a number, if it is reported.
fn add_number(options: Options, option: NumberOption, object: Object) -> Result<Object, AllocError>
    ensures { IfOk result (λ made. members_view made.members.entries ≡
        with_number options (members_view object.members.entries) option) }
{
    if !option.is_reported(options) {
        return Ok(object);
    }
    object.with(option.name(), Value::from(option.value(options)))
}

/// The object with the options that are numbers.
fn add_numbers(options: Options, object: Object) -> Result<Object, AllocError>
    ensures { IfOk result (λ made. members_view made.members.entries ≡
        fold (with_number options) (members_view object.members.entries) number_options) }
{
    let mut made = object;
    for option in NUMBER_OPTIONS.iter() {
        made = add_number(options, *option, made)?;
    }
    Ok(made)
}

/// The object with an option that is a flag, if it is reported.
fn add_flag(options: Options, option: FlagOption, object: Object) -> Result<Object, AllocError>
    ensures { IfOk result (λ made. members_view made.members.entries ≡
        with_flag options (members_view object.members.entries) option) }
{
    if !option.is_reported(options) {
        return Ok(object);
    }
    object.with(option.name(), Value::from(option.value(options)))
}

/// The object with the options that are flags.
fn add_flags(options: Options, object: Object) -> Result<Object, AllocError>
    ensures { IfOk result (λ made. members_view made.members.entries ≡
        fold (with_flag options) (members_view object.members.entries) flag_options) }
{
    let mut made = object;
    for option in FLAG_OPTIONS.iter() {
        made = add_flag(options, *option, made)?;
    }
    Ok(made)
}

/// How the source was analysed.
fn options_value(alloc: Global, options: Options) -> Result<Value, AllocError>
    ensures { IfOk result (λ value. view value ≡ options_data options) }
{
    let object = Object::new(alloc).with_text("domain", options.domain.name())?;
    let object = add_numbers(options, object)?;
    let object = add_flags(options, object)?;
    Ok(object.into_value())
}

/// The number of the flagged point, or 0.
fn flag_number(flagged: Option<u32>) -> u32
    ensures { natural result ≡ flag_data flagged }
{
    flagged.unwrap_or(0)
}

/// How many of the verdicts that count are proved, and how many are unknown.
fn counts_object(alloc: Global, report: &Report) -> Result<Object, AllocError>
    ensures { IfOk result (λ made. members_view made.members.entries ≡
        counts_of (report_of report.now).verdicts) }
{
    let object = Object::new(alloc).with("proved", Value::from(report.proved_count()))?;
    object.with("unknown", Value::from(report.unknown_count()))
}

/// What stands in every report's object.
fn fixed_object(alloc: Global, report: &Report) -> Result<Object, AllocError>
    ensures { IfOk result (λ made. members_view made.members.entries ≡
        fixed_members (report_of report.now)) }
{
    let object = counts_object(alloc, report)?;
    let object = object.with("flagged", Value::from(flag_number(report.flagged)))?;
    let object = object.with("analysis", options_value(alloc, report.options)?)?;
    let points = point_values(alloc, report.options.domain, report.points.as_slice())?;
    object.with("points", Value::from(points))
}

/// Whether a verdict stands under this key.
fn is_listed(report: &Report, key: &str) -> bool
    ensures { result ≡ list_any (is_under key.now) (report_of report.now).verdicts }
{
    report
        .verdicts
        .iter()
        .any(|verdict| verdict.kind.key() == key)
}

/// The object with the verdicts of a kind, if its key stands.
fn add_verdicts(
    alloc: Global,
    report: &Report,
    kind: VerdictKind,
    object: Object,
) -> Result<Object, AllocError>
    ensures { IfOk result (λ made. members_view made.members.entries ≡
        with_verdicts (report_of report.now) (members_view object.members.entries) kind) }
{
    let key = kind.key();
    if !kind.stands(report.options, is_listed(report, key)) {
        return Ok(object);
    }
    let verdicts = verdict_values(alloc, key, report.verdicts.as_slice())?;
    object.with(key, Value::from(verdicts))
}

/// The JSON value of a report.
pub fn to_value(alloc: Global, report: &Report) -> Result<Value, AllocError>
    ensures { IfOk result (λ value. view value ≡ report_data (report_of report.now)) }
{
    let mut object = fixed_object(alloc, report)?;
    for kind in VERDICT_KINDS.iter() {
        object = add_verdicts(alloc, report, *kind, object)?;
    }
    Ok(object.into_value())
}

/// The JSON of a report, ended by a line feed.
pub fn json_text(alloc: Global, report: &Report) -> Result<Vec<u8>, AllocError>
    ensures { IfOk result (λ bytes. bytes.items ≡ report_json (report_of report.now)) }
{
    let value = to_value(alloc, report)?;
    let mut bytes = value.to_vec(alloc)?;
    bytes.push(b'\n')?;
    Ok(bytes)
}
