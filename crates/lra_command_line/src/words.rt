//! The command that a list of words gives.
ghost use Rattle.std.specs.Prelude.{◌≡◌, ◌^◌, Err, IfErr, IfOk, IfSome, Some, codes, fold, map, option_map};
ghost use Rattle.std.specs.Prelude.{string_bytes};
ghost use Rattle.clap.specs.{Simple.subcommand_rows_of, Takes.is_given, Words.found_of, Words.kind_of, Words.rows_of};
ghost use Rattle.lra_command_line.specs.ParsedCommand.{Asks, AsksFor, AsksNone, AsksOver, IsRejected, IsWithinRanges};
ghost use Rattle.lra_command_line.specs.ParsedCommand.{command_of, domain_at, agreeing, analyse_of, back_of, best_of};
ghost use Rattle.lra_command_line.specs.ParsedCommand.{chosen_options, domain_named, flag_at, format_at, format_of};
ghost use Rattle.lra_command_line.specs.ParsedCommand.{gives_any, gives_flag, gives_number, gives_settled, number_at};
ghost use Rattle.lra_command_line.specs.ParsedCommand.{optioned_command, options_of, sample_of, with_beside};
ghost use Rattle.lra_command_line.specs.ParsedCommand.{with_domain, file_of, named_file, threads_of, with_flag};
ghost use Rattle.lra_command_line.specs.Requests.{IsTakenAs, IsUnasked, refusal, unasked_by};
ghost use Rattle.lra_command_line.specs.{CommandLine.plain_named, ParsedCommand.with_number};
ghost use Rattle.lra_options.specs.OptionRows.{best_options, number_options, flag_options};

use crate::command_line::declare;
use crate::commands::{Command, Format, PLAIN_COMMANDS, PlainCommand};
use clap::ArgMatches;
use clap::error::ErrorKind;
use clap::parser::ValueSource;
use lra_options::{
    DOMAINS, Domain, FLAG_OPTIONS, FlagOption, NUMBER_OPTIONS, Options, best_options,
    default_options,
};
use std::alloc::{AllocError, Global};

/// Why words give no command.
#[derive(Clone, Copy, PartialEq, Debug)]
pub enum Refusal {
    /// The command line doesn't take the words, or their options conflict.
    Usage,
    /// Memory ran out.
    Memory,
}

/// What words ask for: a command, and the file that it is to read in place of standard input.
#[derive(Clone, Copy)]
pub(crate) struct Asked<'a> {
    command: Command,
    pub(crate) file: Option<&'a str>,
}

/// Why they ask for no command.
#[derive(Drop)]
pub(crate) enum Unasked {
    /// Memory ran out.
    Memory,
    /// They ask for help, or for the version, which the text has.
    Shown(clap::Error),
    /// The command line doesn't take them; the text says why.
    Refused(clap::Error),
    /// Their options conflict.
    Conflict,
}

impl Unasked {
    /// Why the words ask for nothing, without the text that says it.
    fn refusal(&self) -> Refusal
        ensures { result ≡ refusal self.now }
    {
        match self {
            Unasked::Memory => Refusal::Memory,
            Unasked::Shown(_) => Refusal::Usage,
            Unasked::Refused(_) => Refusal::Usage,
            Unasked::Conflict => Refusal::Usage,
        }
    }
}

/// What an error of the parse is.
fn explain(error: clap::Error) -> Unasked
    ensures { result ≡ unasked_by (kind_of error) error }
{
    match error.kind() {
        ErrorKind::OutOfMemory => Unasked::Memory,
        ErrorKind::DisplayHelp | ErrorKind::DisplayVersion => Unasked::Shown(error),
        _ => Unasked::Refused(error),
    }
}

fn find_domain(name: &str) -> Option<Domain>
    ensures { result ≡ domain_named name.now }
{
    DOMAINS.iter().copied().find(|domain| name == domain.name())
}

fn read_domain(matches: &ArgMatches) -> Option<Domain>
    ensures { result ≡ domain_at (codes "domain") (rows_of (found_of matches.now)) }
{
    find_domain(matches.get_str("domain")?)
}

fn read_number(matches: &ArgMatches, option: &str) -> Option<u32>
    ensures { result ≡ number_at option.now (2 ^ 32) (rows_of (found_of matches.now)) }
{
    matches.get_one::<u32>(option)
}

fn read_flag(matches: &ArgMatches, option: &str) -> Option<bool>
    ensures { result ≡ flag_at option.now (rows_of (found_of matches.now)) }
{
    matches.get_one::<bool>(option)
}

/// The defaults over the domain that is read.
fn begin_options(matches: &ArgMatches) -> Option<Options>
    ensures { result ≡ with_domain (rows_of (found_of matches.now)) }
{
    let domain = read_domain(matches)?;
    Some(Options {
        domain,
        ..default_options()
    })
}

/// The options with the numbers that the words give.
fn read_numbers(matches: &ArgMatches, options: Options) -> Option<Options>
    ensures { result ≡
        fold (with_number (rows_of (found_of matches.now))) (Some options) number_options }
{
    let mut read = options;
    for option in NUMBER_OPTIONS.iter() {
        let value = read_number(matches, option.name())?;
        read = option.set(value, read);
    }
    Some(read)
}

/// The options with the flags that the words give.
fn read_flags(matches: &ArgMatches, options: Options) -> Option<Options>
    ensures { result ≡
        fold (with_flag (rows_of (found_of matches.now))) (Some options) flag_options }
{
    let mut read = options;
    for option in FLAG_OPTIONS.iter() {
        let value = read_flag(matches, option.name())?;
        read = option.set(value, read);
    }
    Some(read)
}

fn read_options(matches: &ArgMatches) -> Option<Options>
    ensures { result ≡ options_of (rows_of (found_of matches.now)) }
{
    let options = begin_options(matches)?;
    let options = read_numbers(matches, options)?;
    read_flags(matches, options)
}

/// Whether the words themselves give the option, and it hasn't its default alone.
fn is_given(matches: &ArgMatches, option: &str) -> bool
    ensures { result ≡ is_given option.now (rows_of (found_of matches.now)) }
{
    match matches.value_source(option) {
        Some(ValueSource::DefaultValue) => false,
        Some(ValueSource::CommandLine) => true,
        None => matches.contains_id(option),
    }
}

/// Whether they give one of the options that are numbers.
fn gives_number(matches: &ArgMatches) -> bool
    ensures { result ≡ gives_number (rows_of (found_of matches.now)) }
{
    for option in NUMBER_OPTIONS.iter() {
        if is_given(matches, option.name()) {
            return true;
        }
    }
    false
}

/// Whether they give this flag, and `--best` stands for it.
fn gives_settled(matches: &ArgMatches, option: FlagOption) -> bool
    ensures { result ≡ gives_settled (rows_of (found_of matches.now)) option }
{
    !option.stands_beside_best() && is_given(matches, option.name())
}

/// Whether they give one of the flags for which `--best` stands.
fn gives_flag(matches: &ArgMatches) -> bool
    ensures { result ≡ gives_flag (rows_of (found_of matches.now)) }
{
    for option in FLAG_OPTIONS.iter() {
        if gives_settled(matches, *option) {
            return true;
        }
    }
    false
}

fn gives_any(matches: &ArgMatches) -> bool
    ensures { result ≡ gives_any (rows_of (found_of matches.now)) }
{
    is_given(matches, "domain") || gives_number(matches) || gives_flag(matches)
}

/// The options with this flag as the words give it, if the flag may be given beside `--best`.
fn read_beside(matches: &ArgMatches, option: FlagOption, options: Options) -> Option<Options>
    ensures { result ≡ with_beside (rows_of (found_of matches.now)) (Some options) option }
{
    if option.stands_beside_best() {
        let is_on = read_flag(matches, option.name())?;
        Some(option.set(is_on, options))
    } else {
        Some(options)
    }
}

/// The options for which `--best` stands, with the flags that stand beside it.
fn read_settled(matches: &ArgMatches) -> Option<Options>
    ensures { result ≡
        fold (with_beside (rows_of (found_of matches.now))) (Some best_options) flag_options }
{
    let mut read = best_options();
    for option in FLAG_OPTIONS.iter() {
        read = read_beside(matches, *option, read)?;
    }
    Some(read)
}

/// The options of `--best`, if none of the options that it stands for is given beside it.
fn read_best(matches: &ArgMatches) -> Option<Options>
    ensures { result ≡ best_of (rows_of (found_of matches.now)) }
{
    if gives_any(matches) {
        None
    } else {
        read_settled(matches)
    }
}

/// The options, if they can be given together.
fn check_agree(options: Options) -> Option<Options>
    ensures { result ≡ agreeing options }
{
    if options.are_compatible() {
        Some(options)
    } else {
        None
    }
}

fn choose_options(matches: &ArgMatches) -> Option<Options>
    ensures { result ≡ chosen_options (rows_of (found_of matches.now)) }
{
    let best = read_flag(matches, "best")?;
    if best {
        return read_best(matches);
    }
    let options = read_options(matches)?;
    check_agree(options)
}

fn choose_format(json: bool) -> Format
    ensures { result ≡ format_of json }
{
    if json { Format::Json } else { Format::Lines }
}

fn read_format(matches: &ArgMatches) -> Option<Format>
    ensures { result ≡ format_at (rows_of (found_of matches.now)) }
{
    let json = read_flag(matches, "json")?;
    Some(choose_format(json))
}

fn read_analyse(matches: &ArgMatches) -> Option<Command>
    ensures { result ≡ analyse_of (rows_of (found_of matches.now)) }
{
    let options = choose_options(matches)?;
    let format = read_format(matches)?;
    Some(Command::Analyse { options, format })
}

fn read_seed(matches: &ArgMatches) -> Option<u64>
    ensures { result ≡ number_at (codes "seed") (2 ^ 64) (rows_of (found_of matches.now)) }
{
    matches.get_one::<u64>("seed")
}

fn read_sample(matches: &ArgMatches) -> Option<Command>
    ensures { result ≡ sample_of (rows_of (found_of matches.now)) }
{
    let seed = read_seed(matches)?;
    let size = read_number(matches, "size")?;
    Some(Command::Sample { seed, size })
}

fn read_back(matches: &ArgMatches) -> Option<Command>
    ensures { result ≡ back_of (rows_of (found_of matches.now)) }
{
    let point = read_number(matches, "point")?;
    Some(Command::Back { point })
}

fn read_threads(matches: &ArgMatches) -> Option<Command>
    ensures { result ≡ threads_of (rows_of (found_of matches.now)) }
{
    let delay = read_number(matches, "delay")?;
    let narrow = read_number(matches, "narrow")?;
    Some(Command::Threads { delay, narrow })
}

fn find_plain(name: &str) -> Option<PlainCommand>
    ensures { result ≡ plain_named name.now }
{
    PLAIN_COMMANDS
        .iter()
        .copied()
        .find(|command| name == command.name())
}

/// The command of this name with the options that are read.
fn read_optioned(name: &str, matches: &ArgMatches) -> Option<Command>
    ensures { result ≡ optioned_command name.now (rows_of (found_of matches.now)) }
{
    match name {
        "analyse" => read_analyse(matches),
        "sample" => read_sample(matches),
        "back" => read_back(matches),
        "threads" => read_threads(matches),
        _ => None,
    }
}

fn choose_command(name: &str, matches: &ArgMatches) -> Option<Command>
    ensures { result ≡ command_of (Some (name.now, rows_of (found_of matches.now))) }
{
    match find_plain(name) {
        Some(command) => Some(Command::Plain(command)),
        None => read_optioned(name, matches),
    }
}

/// The file that is named, `None` for standard input.
fn read_file<'a>(matches: &ArgMatches<'a>) -> Option<&'a str>
    ensures { option_map (λ name. name.now) result ≡ file_of (rows_of (found_of matches.now)) }
{
    let name = matches.get_str("file")?;
    if name == "-" { None } else { Some(name) }
}

/// What the matches ask for, `None` if their options conflict.
fn choose<'a>(matches: &ArgMatches<'a>) -> Option<Asked<'a>>
    ensures command { option_map (λ a. a.command) result ≡ command_of (subcommand_rows_of matches.now) }
    ensures file { IfSome result (λ a.
        option_map (λ name. name.now) a.file ≡ named_file (subcommand_rows_of matches.now)) }
{
    let (name, inner) = matches.subcommand()?;
    let command = choose_command(name, inner)?;
    let file = read_file(inner);
    Some(Asked { command, file })
}

/// The matches of words that the command line takes.
fn match_words<'a>(alloc: Global, words: &'a [String]) -> Result<ArgMatches<'a>, clap::Error>
    ensures taken { IfOk result (IsTakenAs (map string_bytes words.now)) }
    ensures fault { IfErr result (λ e.
        IsUnasked (map string_bytes words.now) (unasked_by (kind_of e) e)) }
{
    let app = declare(alloc)?;
    app.try_get_matches_from(words)
}

/// What the words ask for.
pub(crate) fn ask<'a>(alloc: Global, words: &'a [String]) -> Result<Asked<'a>, Unasked>
    ensures asked { IfOk result (λ a.
        AsksOver (map string_bytes words.now) a.command (option_map (λ name. name.now) a.file)) }
    ensures ranges { IfOk result (λ a. IsWithinRanges a.command) }
    ensures none { IfErr result (IsUnasked (map string_bytes words.now)) }
{
    let matches = match match_words(alloc, words) {
        Ok(matches) => matches,
        Err(error) => return Err(explain(error)),
    };
    match choose(&matches) {
        Some(asked) => Ok(asked),
        None => Err(Unasked::Conflict),
    }
}

/// The command that the words give; the first word is the program's name.
///
/// `Usage` comes exactly if the command line doesn't take the words, or if options are among them that can't be
/// given together; `Memory` only when memory runs out. Nothing is printed.
pub fn parse_command(alloc: Global, words: &[String]) -> Result<Command, Refusal>
    ensures usage { result ≡ Err Refusal.Usage →
        AsksNone (map string_bytes words.now) × IsRejected (map string_bytes words.now) }
    ensures taken { IfOk result (λ c. Asks (map string_bytes words.now) c) }
    ensures ranges { IfOk result (λ c. IsWithinRanges c) }
{
    match ask(alloc, words) {
        Ok(asked) => Ok(asked.command),
        Err(why) => Err(why.refusal()),
    }
}

/// The command that the words ask for, `None` if the command line doesn't take them or their options conflict.
pub fn find_command(alloc: Global, words: &[String]) -> Result<Option<Command>, AllocError>
    ensures asks { IfOk result (λ asked. AsksFor (map string_bytes words.now) asked) }
    ensures ranges { IfOk result (λ asked. IfSome asked IsWithinRanges) }
{
    match parse_command(alloc, words) {
        Ok(command) => Ok(Some(command)),
        Err(Refusal::Usage) => Ok(None),
        Err(Refusal::Memory) => Err(AllocError),
    }
}
