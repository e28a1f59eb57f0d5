//! The command line, declared to `clap` as a simple command: one level of subcommands, one of them
//! required, options that stand once each, in any order, and at most one file.
//!
//! Each number is declared as a `u64` with its range, so that all numbers are written alike: decimal
//! digits after at most one plus. Which subcommand takes what is a table; what help says of it
//! stands in `texts`.
ghost use Rattle.std.specs.Prelude.{◌≡◌, IfOk, false};
ghost use Rattle.lra_options.specs.OptionRows.{flag_row, number_row};
ghost use Rattle.clap.specs.{Words.app_of, Words.rule_of, declared.builder.command.Command.TheViews.out-Command};
ghost use Rattle.lra_command_line.specs.CommandLine.{DeclaresCommandLine, TakesDomains, argument_rule, arguments_of};
ghost use Rattle.lra_command_line.specs.CommandLine.{begun, flag, number, number_rule, subcommand_app, subcommand_name};
ghost use Rattle.lra_command_line.specs.CommandLine.{valued, with_arguments};

use crate::commands::PlainCommand;
use crate::texts::{ABOUT, AFTER_HELP, VERSION};
use clap::builder::ValueParser;
use clap::{Arg, ArgAction, Command, value_parser};
use lra_options::{FlagOption, NumberOption};
use std::alloc::{AllocError, Global};

static DOMAIN_NAMES: [&str; 3] = ["poly", "box", "oct"];

/// What may stand among the words of a subcommand.
#[derive(Clone, Copy)]
pub(crate) enum Argument {
    /// The domain of an analysis.
    Domain,
    /// A number of an analysis.
    Number(NumberOption),
    /// A flag of an analysis.
    Flag(FlagOption),
    /// The flag for whoever doesn't want to choose.
    Best,
    /// The flag for a report as JSON.
    Json,
    /// The number from which a sample is made.
    Seed,
    /// How large it is.
    Size,
    /// The point of the assertion from which an analysis goes back.
    Point,
    /// The file that is read, in place of standard input.
    File,
}

static OF_ANALYSE: [Argument; 10] = [
    Argument::Domain,
    Argument::Number(NumberOption::Parts),
    Argument::Number(NumberOption::Delay),
    Argument::Number(NumberOption::Narrow),
    Argument::Flag(FlagOption::Limited),
    Argument::Flag(FlagOption::Thresholds),
    Argument::Flag(FlagOption::Fits),
    Argument::Best,
    Argument::Json,
    Argument::File,
];

static OF_SAMPLE: [Argument; 2] = [Argument::Seed, Argument::Size];

static OF_BACK: [Argument; 2] = [Argument::Point, Argument::File];

static OF_THREADS: [Argument; 3] = [
    Argument::Number(NumberOption::Delay),
    Argument::Number(NumberOption::Narrow),
    Argument::File,
];

static OF_PLAIN: [Argument; 1] = [Argument::File];

/// A subcommand.
#[derive(Clone, Copy)]
pub(crate) enum Subcommand {
    /// Analyse a source.
    Analyse,
    /// Analyse a source that is made from a number.
    Sample,
    /// Go back from an assertion.
    Back,
    /// Analyse a source of several threads.
    Threads,
    /// One without options.
    Plain(PlainCommand),
}

/// The subcommands, in the order of the help text.
const SUBCOMMANDS: [Subcommand; 7] = [
    Subcommand::Analyse,
    Subcommand::Sample,
    Subcommand::Back,
    Subcommand::Threads,
    Subcommand::Plain(PlainCommand::Calc),
    Subcommand::Plain(PlainCommand::Verify),
    Subcommand::Plain(PlainCommand::Certify),
];

impl Subcommand {
    /// The subcommand's name on the command line.
    fn name(self) -> &'static str
        ensures { result.now ≡ subcommand_name self }
    {
        match self {
            Subcommand::Analyse => "analyse",
            Subcommand::Sample => "sample",
            Subcommand::Back => "back",
            Subcommand::Threads => "threads",
            Subcommand::Plain(command) => command.name(),
        }
    }

    /// What may stand among its words.
    fn arguments(self) -> &'static [Argument]
        ensures { result.now ≡ arguments_of self }
    {
        match self {
            Subcommand::Analyse => OF_ANALYSE.as_slice(),
            Subcommand::Sample => OF_SAMPLE.as_slice(),
            Subcommand::Back => OF_BACK.as_slice(),
            Subcommand::Threads => OF_THREADS.as_slice(),
            Subcommand::Plain(_) => OF_PLAIN.as_slice(),
        }
    }
}

/// The names of the domains.
fn domain_parser<'a>() -> ValueParser<'a>
    ensures { TakesDomains result }
{
    ValueParser::Names(DOMAIN_NAMES.as_slice())
}

/// `--name VALUE`, by this parser.
fn valued_arg<'a>(alloc: Global, name: &'a str, value: &'a str, parser: ValueParser<'a>) -> Arg<'a>
    ensures rule { rule_of result ≡ valued name.now parser.entry }
    ensures local { result.global ≡ false }
{
    Arg::new(alloc, name)
        .long(name)
        .value_name(value)
        .value_parser(parser)
}

/// `--name`.
fn flag_arg<'a>(alloc: Global, name: &'a str) -> Arg<'a>
    ensures rule { rule_of result ≡ flag name.now }
    ensures local { result.global ≡ false }
{
    Arg::new(alloc, name).long(name).action(ArgAction::SetTrue)
}

/// A number from `least` to `greatest`.
fn between<'a>(least: u32, greatest: u32) -> ValueParser<'a>
    ensures { result ≡ number least greatest }
{
    value_parser!(u64).range(i64::from(least)..=i64::from(greatest))
}

/// An option of an analysis that is a number, by its row.
fn number_arg<'a>(alloc: Global, option: NumberOption) -> Arg<'a>
    ensures rule { rule_of result ≡ number_rule (number_row option) }
    ensures local { result.global ≡ false }
{
    let range = between(option.least(), option.greatest());
    let name: &'a str = option.name();
    let default: &'a str = option.default_text();
    valued_arg(alloc, name, "N", range).default_value(default)
}

/// An option of an analysis that is a flag, by its row.
fn option_arg<'a>(alloc: Global, option: FlagOption) -> Arg<'a>
    ensures rule { rule_of result ≡ flag (flag_row option).name }
    ensures local { result.global ≡ false }
{
    let name: &'a str = option.name();
    flag_arg(alloc, name)
}

/// The argument without its help, with the parser of the domains.
fn bare_arg<'a>(alloc: Global, domains: ValueParser<'a>, argument: Argument) -> Arg<'a>
    ensures rule { rule_of result ≡ argument_rule domains.entry argument }
    ensures local { result.global ≡ false }
{
    match argument {
        Argument::Domain => valued_arg(alloc, "domain", "DOMAIN", domains).default_value("poly"),
        Argument::Number(option) => number_arg(alloc, option),
        Argument::Flag(option) => option_arg(alloc, option),
        Argument::Best => flag_arg(alloc, "best"),
        Argument::Json => flag_arg(alloc, "json"),
        Argument::Seed => valued_arg(alloc, "seed", "N", value_parser!(u64)).required(true),
        Argument::Size => valued_arg(alloc, "size", "N", between(0, 400)).required(true),
        Argument::Point => valued_arg(alloc, "point", "N", between(1, 2048)).required(true),
        Argument::File => Arg::new(alloc, "file").value_name("FILE"),
    }
}

/// The argument with its line of help.
fn make_arg<'a>(alloc: Global, domains: ValueParser<'a>, argument: Argument) -> Arg<'a>
    ensures rule { rule_of result ≡ argument_rule domains.entry argument }
    ensures local { result.global ≡ false }
{
    let help: &'a str = argument.help();
    bare_arg(alloc, domains, argument).help(help)
}

/// The command so far, and these arguments.
fn add_arguments<'a>(
    alloc: Global,
    domains: ValueParser<'a>,
    arguments: &[Argument],
    command: Command<'a>,
) -> Result<Command<'a>, AllocError>
    ensures app { IfOk result (λ c.
        app_of c ≡ with_arguments domains.entry arguments.now (app_of command.entry)) }
    ensures local { IfOk result (λ c.
        (out-Command c).has_globals ≡ (out-Command command.entry).has_globals) }
{
    let mut declared = command;
    for argument in arguments.iter() {
        declared = declared.arg(make_arg(alloc, domains, *argument))?;
    }
    Ok(declared)
}

fn make_subcommand<'a>(
    alloc: Global,
    domains: ValueParser<'a>,
    named: Subcommand,
) -> Result<Command<'a>, AllocError>
    ensures app { IfOk result (λ c. app_of c ≡ subcommand_app domains.entry named) }
    ensures local { IfOk result (λ c. (out-Command c).has_globals ≡ false) }
{
    let name: &'a str = named.name();
    let about: &'a str = named.about();
    let ending: &'a str = named.after_help();
    let command = Command::new(alloc, name).about(about).after_help(ending);
    add_arguments(alloc, domains, named.arguments(), command)
}

/// The program's own words: its name, its version, and that a subcommand has to be named.
fn begin<'a>(alloc: Global) -> Command<'a>
    ensures { app_of result ≡ begun }
{
    Command::new(alloc, "lra")
        .version(VERSION)
        .about(ABOUT)
        .after_help(AFTER_HELP)
        .subcommand_required(true)
}

/// The command line with its subcommands.
pub(crate) fn declare<'a>(alloc: Global) -> Result<Command<'a>, AllocError>
    ensures { IfOk result (λ c. DeclaresCommandLine (app_of c)) }
{
    let domains = domain_parser();
    let mut declared = begin(alloc);
    for named in SUBCOMMANDS.iter() {
        declared = declared.subcommand(make_subcommand(alloc, domains, *named)?)?;
    }
    Ok(declared)
}
