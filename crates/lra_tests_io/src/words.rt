use lra_command_line::{
    Command, Format, PLAIN_COMMANDS, PlainCommand, Refusal, Request, find_command, parse_command,
    read_request,
};
use lra_options::{BEST_OPTIONS, DEFAULT_OPTIONS, Domain, NUMBER_OPTIONS, Options};
use std::alloc::{AllocError, Global};
use std::process::Abort;

const DEFAULTS: Options = DEFAULT_OPTIONS;

const BOXES: Options = Options {
    domain: Domain::Box,
    ..DEFAULTS
};

const ANALYSE: Command = Command::Analyse {
    options: DEFAULTS,
    format: Format::Lines,
};

const ANALYSE_BOXES: Command = Command::Analyse {
    options: BOXES,
    format: Format::Lines,
};

/// Lines, and the commands that they ask for, most with one option.
static ONE_OPTION: [(&str, Command); 14] = [
    ("lra analyse", ANALYSE),
    ("other analyse", ANALYSE),
    ("lra analyse --", ANALYSE),
    ("lra analyse --domain poly", ANALYSE),
    ("lra analyse --domain box", ANALYSE_BOXES),
    (
        "lra analyse --domain=oct",
        Command::Analyse {
            options: Options {
                domain: Domain::Oct,
                ..DEFAULTS
            },
            format: Format::Lines,
        },
    ),
    ("lra analyse --parts 1 --domain=box", ANALYSE_BOXES),
    (
        "lra analyse --parts=16",
        Command::Analyse {
            options: Options {
                parts: 16,
                ..DEFAULTS
            },
            format: Format::Lines,
        },
    ),
    (
        "lra analyse --domain box --parts 2",
        Command::Analyse {
            options: Options { parts: 2, ..BOXES },
            format: Format::Lines,
        },
    ),
    (
        "lra analyse --delay 0",
        Command::Analyse {
            options: Options {
                delay: 0,
                ..DEFAULTS
            },
            format: Format::Lines,
        },
    ),
    (
        "lra analyse --delay=8",
        Command::Analyse {
            options: Options {
                delay: 8,
                ..DEFAULTS
            },
            format: Format::Lines,
        },
    ),
    (
        "lra analyse --delay=+2",
        Command::Analyse {
            options: Options {
                delay: 2,
                ..DEFAULTS
            },
            format: Format::Lines,
        },
    ),
    (
        "lra analyse --delay +3",
        Command::Analyse {
            options: Options {
                delay: 3,
                ..DEFAULTS
            },
            format: Format::Lines,
        },
    ),
    (
        "lra analyse --delay=007",
        Command::Analyse {
            options: Options {
                delay: 7,
                ..DEFAULTS
            },
            format: Format::Lines,
        },
    ),
];

/// Lines that ask for thresholds, alone or among the options for which one word stands.
static THRESHOLDS: [(&str, Command); 5] = [
    (
        "lra analyse --thresholds",
        Command::Analyse {
            options: Options {
                thresholds: true,
                ..DEFAULTS
            },
            format: Format::Lines,
        },
    ),
    (
        "lra analyse --parts 4 --thresholds --json",
        Command::Analyse {
            options: BEST_OPTIONS,
            format: Format::Json,
        },
    ),
    (
        "lra analyse --best",
        Command::Analyse {
            options: BEST_OPTIONS,
            format: Format::Lines,
        },
    ),
    (
        "lra analyse --json --best",
        Command::Analyse {
            options: BEST_OPTIONS,
            format: Format::Json,
        },
    ),
    (
        "lra analyse --domain=poly --narrow 0 --thresholds --",
        Command::Analyse {
            options: Options {
                narrow: 0,
                thresholds: true,
                ..DEFAULTS
            },
            format: Format::Lines,
        },
    ),
];

/// Lines that ask which operations fit, alone or beside the options for which one word stands.
static FITS: [(&str, Command); 4] = [
    (
        "lra analyse --fits",
        Command::Analyse {
            options: Options {
                fits: true,
                ..DEFAULTS
            },
            format: Format::Lines,
        },
    ),
    (
        "lra analyse --domain box --fits --json",
        Command::Analyse {
            options: Options {
                fits: true,
                ..BOXES
            },
            format: Format::Json,
        },
    ),
    (
        "lra analyse --best --fits",
        Command::Analyse {
            options: Options {
                fits: true,
                ..BEST_OPTIONS
            },
            format: Format::Lines,
        },
    ),
    (
        "lra analyse --fits --json --best",
        Command::Analyse {
            options: Options {
                fits: true,
                ..BEST_OPTIONS
            },
            format: Format::Json,
        },
    ),
];

/// Words with several options or none, and the command that they ask for.
static SEVERAL: [(&str, Command); 15] = [
    (
        "lra analyse --delay 3 --domain box --limited",
        Command::Analyse {
            options: Options {
                delay: 3,
                limited: true,
                ..BOXES
            },
            format: Format::Lines,
        },
    ),
    (
        "lra analyse --narrow=0",
        Command::Analyse {
            options: Options {
                narrow: 0,
                ..DEFAULTS
            },
            format: Format::Lines,
        },
    ),
    (
        "lra analyse --narrow 4 --domain=box --delay 0",
        Command::Analyse {
            options: Options {
                delay: 0,
                narrow: 4,
                ..BOXES
            },
            format: Format::Lines,
        },
    ),
    (
        "lra analyse --limited",
        Command::Analyse {
            options: Options {
                limited: true,
                ..DEFAULTS
            },
            format: Format::Lines,
        },
    ),
    (
        "lra analyse --json",
        Command::Analyse {
            options: DEFAULTS,
            format: Format::Json,
        },
    ),
    (
        "lra analyse --domain box --json",
        Command::Analyse {
            options: BOXES,
            format: Format::Json,
        },
    ),
    (
        "lra analyse --json --narrow 3 --limited --delay=2 --parts 5 --domain oct --",
        Command::Analyse {
            options: Options {
                domain: Domain::Oct,
                parts: 5,
                delay: 2,
                narrow: 3,
                limited: true,
                thresholds: false,
                fits: false,
            },
            format: Format::Json,
        },
    ),
    (
        "lra sample --seed 0 --size 0",
        Command::Sample { seed: 0, size: 0 },
    ),
    (
        "lra sample --size=400 --seed=18446744073709551615",
        Command::Sample {
            seed: 18446744073709551615,
            size: 400,
        },
    ),
    (
        "lra sample --seed +5 --size=+7 --",
        Command::Sample { seed: 5, size: 7 },
    ),
    ("other calc", Command::Plain(PlainCommand::Calc)),
    ("lra calc", Command::Plain(PlainCommand::Calc)),
    ("lra calc --", Command::Plain(PlainCommand::Calc)),
    ("lra verify", Command::Plain(PlainCommand::Verify)),
    ("lra verify --", Command::Plain(PlainCommand::Verify)),
];

/// Lines that ask to go back from an assertion.
static BACK: [(&str, Command); 4] = [
    ("lra back --point 1", Command::Back { point: 1 }),
    ("other back --point=2048", Command::Back { point: 2048 }),
    ("lra back --point +7", Command::Back { point: 7 }),
    ("lra back --point=007 --", Command::Back { point: 7 }),
];

/// Lines that ask for an analysis of threads.
static THREADS: [(&str, Command); 3] = [
    (
        "lra threads",
        Command::Threads {
            delay: 1,
            narrow: 1,
        },
    ),
    (
        "lra threads --delay 0 --narrow=4",
        Command::Threads {
            delay: 0,
            narrow: 4,
        },
    ),
    (
        "other threads --narrow 0 --",
        Command::Threads {
            delay: 1,
            narrow: 0,
        },
    ),
];

const CALC: Command = Command::Plain(PlainCommand::Calc);

const VERIFY: Command = Command::Plain(PlainCommand::Verify);

const CERTIFY: Command = Command::Plain(PlainCommand::Certify);

const SAMPLE: Command = Command::Sample { seed: 1, size: 2 };

const BACK_FROM_3: Command = Command::Back { point: 3 };

const DEFAULT_THREADS: Command = Command::Threads {
    delay: 1,
    narrow: 1,
};

const ANALYSE_LIMITED: Command = Command::Analyse {
    options: Options {
        limited: true,
        ..DEFAULTS
    },
    format: Format::Lines,
};

/// Lines, the commands that they ask for, and the files that they name; `-`, or none, is standard input.
static FILES: [(&str, Command, Option<&str>); 26] = [
    ("lra analyse", ANALYSE, None),
    ("lra analyse --", ANALYSE, None),
    ("lra analyse -", ANALYSE, None),
    ("lra analyse -- -", ANALYSE, None),
    ("lra analyse --domain box -", ANALYSE_BOXES, None),
    ("lra analyse a.c", ANALYSE, Some("a.c")),
    ("lra analyse ", ANALYSE, Some("")),
    ("lra analyse analyse", ANALYSE, Some("analyse")),
    (
        "lra analyse --domain box ../a/b.c",
        ANALYSE_BOXES,
        Some("../a/b.c"),
    ),
    ("lra analyse a.c --domain=box", ANALYSE_BOXES, Some("a.c")),
    ("lra analyse --limited yes", ANALYSE_LIMITED, Some("yes")),
    ("lra analyse -- --limited", ANALYSE, Some("--limited")),
    ("lra analyse --limited -- a.c", ANALYSE_LIMITED, Some("a.c")),
    ("lra back --point 3 -", BACK_FROM_3, None),
    ("lra back --point 3 4", BACK_FROM_3, Some("4")),
    ("lra back a.c --point=3", BACK_FROM_3, Some("a.c")),
    ("lra threads -", DEFAULT_THREADS, None),
    ("lra threads a.c", DEFAULT_THREADS, Some("a.c")),
    ("lra threads -- a.c", DEFAULT_THREADS, Some("a.c")),
    ("lra calc -", CALC, None),
    ("lra calc calc", CALC, Some("calc")),
    ("lra verify -", VERIFY, None),
    ("lra verify calc", VERIFY, Some("calc")),
    ("lra certify -", CERTIFY, None),
    ("lra certify a.c", CERTIFY, Some("a.c")),
    ("lra sample --seed 1 --size 2", SAMPLE, None),
];

/// The words of a line, between single spaces.
fn words_of(alloc: Global, line: &str) -> Result<Vec<String>, AllocError> {
    let mut words = Vec::new(alloc);
    for word in line.split(' ') {
        words.push(String::from_str(alloc, word)?)?;
    }
    Ok(words)
}

/// Whether the words of the line ask for the command over the file.
fn asks_over(
    alloc: Global,
    line: &str,
    chosen: Command,
    file: Option<&str>,
) -> Result<bool, AllocError> {
    let words = words_of(alloc, line)?;
    let taken = parse_command(alloc, &words) == Ok(chosen);
    let found = find_command(alloc, &words) == Ok(Some(chosen));
    Ok(taken && found && read_request(alloc, &words) == Ok(Request::Run(file)))
}

/// Whether they ask for the command over standard input.
fn asks(alloc: Global, line: &str, chosen: Command) -> Result<bool, AllocError> {
    asks_over(alloc, line, chosen, None)
}

/// Checks lines that ask for commands.
fn are_taken(rt: &impl Abort, alloc: Global, lines: &[(&str, Command)]) {
    for (line, chosen) in lines {
        let taken = asks(alloc, line, *chosen);
        assert!(rt; taken == Ok(true), "{line}");
    }
}

#[test]
fn commands_are_taken(rt: HostRuntime) {
    are_taken(&rt, rt.alloc(), &ONE_OPTION);
    are_taken(&rt, rt.alloc(), &SEVERAL);
    are_taken(&rt, rt.alloc(), &THRESHOLDS);
    are_taken(&rt, rt.alloc(), &FITS);
    are_taken(&rt, rt.alloc(), &BACK);
    are_taken(&rt, rt.alloc(), &THREADS);
}

#[test]
fn files_are_named(rt: HostRuntime) {
    for (line, chosen, file) in FILES.iter() {
        let named = asks_over(rt.alloc(), line, *chosen, *file);
        assert!(rt; named == Ok(true), "{line}");
    }
}

/// Whether the words ask for no command.
fn are_none(alloc: Global, words: &[String]) -> bool {
    let refused = parse_command(alloc, words) == Err(Refusal::Usage);
    refused && find_command(alloc, words) == Ok(None)
}

/// Whether the words of the line ask for nothing that the program takes.
fn asks_none(alloc: Global, line: &str) -> Result<bool, AllocError> {
    let words = words_of(alloc, line)?;
    let told = matches!(read_request(alloc, &words)?, Request::Refuse(_));
    Ok(told && are_none(alloc, &words))
}

/// Checks lines that ask for no command.
fn are_other(rt: &impl Abort, alloc: Global, lines: &[&str]) {
    for line in lines {
        let other = asks_none(alloc, line);
        assert!(rt; other == Ok(true), "{line}");
    }
}

/// No subcommand, a stray word, an unknown one, an option in the wrong place.
static STRAY: [&str; 25] = [
    "lra",
    "",
    "lra ",
    "lra --",
    "lra -",
    "lra -- calc",
    "lra an",
    "lra Analyse",
    "lra report",
    "lra --json analyse",
    "lra a.c analyse",
    "lra analyse a.c b.c",
    "lra analyse - -",
    "lra analyse a.c -- b.c",
    "lra analyse --version",
    "lra calc a b",
    "lra calc --json",
    "lra certify a.c b.c",
    "lra verify a b",
    "lra verify --json",
    "lra verify --domain box",
    "lra analyse --seed 1",
    "lra sample --seed 1 --size 1 --json",
    "lra sample --seed 1 --size 1 a.c",
    "lra sample --seed 1 --size 1 -",
];

/// Domains and parts out of their range, without their value, twice.
static FORMS: [&str; 13] = [
    "lra analyse --domain",
    "lra analyse --domain=",
    "lra analyse --domain cube",
    "lra analyse --domain=Box",
    "lra analyse --dom box",
    "lra analyse --domain box --domain box",
    "lra analyse --parts",
    "lra analyse --parts=",
    "lra analyse --parts 0",
    "lra analyse --parts 17",
    "lra analyse --parts -1",
    "lra analyse --parts x",
    "lra analyse --parts 1 --parts=1",
];

/// Delays, narrowings and switches out of their range, without their value, with one, twice.
static COUNTS: [&str; 16] = [
    "lra analyse --delay",
    "lra analyse --delay=",
    "lra analyse --delay 9",
    "lra analyse --delay=-0",
    "lra analyse --delay -0",
    "lra analyse --delay=1.0",
    "lra analyse --delay 1 --delay 2",
    "lra analyse --narrow",
    "lra analyse --narrow=",
    "lra analyse --narrow 5",
    "lra analyse --narrow=-1",
    "lra analyse --narrow=1 --narrow 1",
    "lra analyse --limited=true",
    "lra analyse --limited --limited",
    "lra analyse --json=false",
    "lra analyse --json --json",
];

/// What an analysis of threads isn't asked.
static NOT_THREADS: [&str; 7] = [
    "lra threads a.c b.c",
    "lra threads --delay 9",
    "lra threads --narrow 5",
    "lra threads --narrow",
    "lra threads --domain box",
    "lra threads --json",
    "lra threads --delay 1 --delay 1",
];

/// Options that can't be given together, be they given with their defaults.
static APART: [&str; 17] = [
    "lra analyse --thresholds --limited",
    "lra analyse --limited --thresholds",
    "lra analyse --domain box --thresholds",
    "lra analyse --thresholds --domain=oct",
    "lra analyse --thresholds --thresholds",
    "lra analyse --thresholds=yes",
    "lra analyse --best --domain poly",
    "lra analyse --parts 4 --best",
    "lra analyse --best --delay=1",
    "lra analyse --best --narrow 1",
    "lra analyse --best --thresholds",
    "lra analyse --best --limited",
    "lra analyse --best --best",
    "lra analyse --fits --fits",
    "lra analyse --fits=yes",
    "lra analyse --best --fits --limited",
    "lra sample --seed 1 --size 1 --best",
];

/// Seeds and sizes out of their range, without their value, twice, or left out.
static SAMPLES: [&str; 16] = [
    "lra sample",
    "lra sample --seed 1",
    "lra sample --size 1",
    "lra sample --seed --size 1",
    "lra sample --seed= --size 1",
    "lra sample --seed -1 --size 1",
    "lra sample --seed=-0 --size 1",
    "lra sample --seed 18446744073709551616 --size 1",
    "lra sample --seed 1 --seed 1 --size 1",
    "lra sample --seed 1 --size",
    "lra sample --seed 1 --size=",
    "lra sample --seed 1 --size 401",
    "lra sample --seed 1 --size -1",
    "lra sample --seed 1 --size 1e2",
    "lra sample --seed 1 --size 2 --size 2",
    "lra sample --seed 1 2",
];

/// Numbers of points out of their range, without their value, twice, or left out.
static POINTS: [&str; 17] = [
    "lra back",
    "lra back --",
    "lra back 1",
    "lra back --point",
    "lra back --point=",
    "lra back --point 0",
    "lra back --point=00",
    "lra back --point 2049",
    "lra back --point -1",
    "lra back --point=1.0",
    "lra back --point x",
    "lra back --point 18446744073709551617",
    "lra back --point 1 --point 1",
    "lra back --point 1 a.c b.c",
    "lra back --point 1 --json",
    "lra back --point 1 --domain poly",
    "lra analyse --point 1",
];

#[test]
fn other_lines_ask_for_nothing(rt: HostRuntime) {
    are_other(&rt, rt.alloc(), &STRAY);
    are_other(&rt, rt.alloc(), &FORMS);
    are_other(&rt, rt.alloc(), &COUNTS);
    are_other(&rt, rt.alloc(), &APART);
    are_other(&rt, rt.alloc(), &SAMPLES);
    are_other(&rt, rt.alloc(), &POINTS);
    are_other(&rt, rt.alloc(), &NOT_THREADS);
}

#[test]
fn no_words_are_refused(rt: HostRuntime) {
    let refused = parse_command(rt.alloc(), &[]) == Err(Refusal::Usage);
    assert!(rt; refused);
}

/// Whether the text is of help, with an example and the exit statuses, and no line of it is over 100 columns.
fn is_help(text: &str) -> bool {
    text.contains("Usage: lra")
        && text.contains("\nExample:\n  lra ")
        && (0..7).all(|status| text.contains(STATUSES[status]))
        && text.lines().all(|line| line.len() <= 100)
}

/// How the line of each exit status begins.
static STATUSES: [&str; 7] = [
    "\n  0  ", "\n  1  ", "\n  2  ", "\n  3  ", "\n  4  ", "\n  5  ", "\n  6  ",
];

/// Lines that ask for the program's help.
static HELP: [&str; 4] = ["lra help", "lra --help", "lra -h", "lra -h calc"];

/// Lines that ask for help on an analysis.
static HELP_ON_ANALYSE: [&str; 4] = [
    "lra help analyse",
    "lra analyse --help",
    "lra analyse -h",
    "lra analyse --domain box a.c --help",
];

/// Lines that ask for help on another command, and parts of what it reports.
static HELP_ON: [(&str, &[&str]); 7] = [
    (
        "lra help sample",
        &["Usage: lra sample --seed <N> --size <N>"],
    ),
    ("lra sample -h", &["0 to 18446744073709551615", "0 to 400"]),
    (
        "lra back --help",
        &["Usage: lra back --point <N> [FILE]", "1 to 2048"],
    ),
    (
        "lra help threads",
        &[
            "Usage: lra threads [OPTIONS] [FILE]",
            "--delay <N>",
            "--narrow <N>",
        ],
    ),
    ("lra calc --help", &["Usage: lra calc [FILE]"]),
    ("lra verify --help", &["Usage: lra verify [FILE]"]),
    ("lra help certify", &["Usage: lra certify [FILE]"]),
];

/// Parts of the program's help.
static EACH_COMMAND: [&str; 11] = [
    "Usage: lra <COMMAND>",
    "\n  analyse  ",
    "\n  sample   ",
    "\n  back     ",
    "\n  threads  ",
    "\n  calc     ",
    "\n  verify   ",
    "\n  certify  ",
    "\n  help     ",
    "\n  -h, --help",
    "\n  -V, --version",
];

/// Parts of the help on an analysis.
static OF_ANALYSE: [&str; 11] = [
    "Usage: lra analyse [OPTIONS] [FILE]",
    "\n  [FILE]  ",
    "--domain <DOMAIN>  ",
    "[default: poly] [possible values: poly, box, oct]",
    "--parts <N>  ",
    "--delay <N>  ",
    "--narrow <N>  ",
    "--limited  ",
    "--thresholds  ",
    "--fits  ",
    "--best  ",
];

/// What the words of the line are shown, and nothing if they ask for something else.
fn shown(alloc: Global, line: &str) -> Result<String, AllocError> {
    let words = words_of(alloc, line)?;
    match read_request(alloc, &words)? {
        Request::Show(text) if are_none(alloc, &words) => Ok(text),
        _ => Ok(String::new(alloc)),
    }
}

/// Whether the line is shown help with these parts.
fn shows(alloc: Global, line: &str, parts: &[&str]) -> Result<bool, AllocError> {
    let text = shown(alloc, line)?;
    Ok(is_help(&text) && parts.iter().all(|part| text.contains(part)))
}

/// Whether the help of an analysis reports the range and the default of each number.
fn tells_ranges(alloc: Global) -> Result<bool, AllocError> {
    let text = shown(alloc, "lra analyse -h")?;
    for option in NUMBER_OPTIONS {
        let (least, greatest) = (option.least(), option.greatest());
        let default = option.default_text();
        let told = format!(in alloc; "{least} to {greatest} [default: {default}]\n")?;
        if !text.contains(told.as_str()) {
            return Ok(false);
        }
    }
    Ok(true)
}

/// Checks lines that are shown help with these parts.
fn are_shown(rt: &impl Abort, alloc: Global, lines: &[&str], parts: &[&str]) {
    for line in lines {
        let told = shows(alloc, line, parts);
        assert!(rt; told == Ok(true), "{line}");
    }
}

#[test]
fn help_is_shown(rt: HostRuntime) {
    are_shown(&rt, rt.alloc(), &HELP, &EACH_COMMAND);
    are_shown(&rt, rt.alloc(), &HELP_ON_ANALYSE, &OF_ANALYSE);
    for (line, parts) in HELP_ON.iter() {
        are_shown(&rt, rt.alloc(), &[*line], parts);
    }
    assert!(rt; tells_ranges(rt.alloc()) == Ok(true));
}

/// Whether the line is shown the version.
fn shows_version(alloc: Global, line: &str) -> Result<bool, AllocError> {
    let text = shown(alloc, line)?;
    Ok(text.starts_with("lra 0.9.0 (logic ") && text.ends_with(")\n"))
}

#[test]
fn the_version_is_shown(rt: HostRuntime) {
    for line in ["lra --version", "lra -V", "other -V"] {
        let told = shows_version(rt.alloc(), line);
        assert!(rt; told == Ok(true), "{line}");
    }
}

/// Lines that aren't accepted, and parts of what is reported of them.
static FAULTS: [(&str, &[&str]); 12] = [
    (
        "lra analyse --domian box",
        &["error: unexpected argument '--domian' found", "'--domain'"],
    ),
    (
        "lra analyze",
        &["error: unrecognized subcommand 'analyze'", "'analyse'"],
    ),
    ("lra", &["error: 'lra' requires a subcommand", "Usage: lra"]),
    (
        "lra analyse --parts 17",
        &["error: invalid value '17' for '--parts <N>': 17 is not in 1..=16"],
    ),
    (
        "lra analyse --domain cube",
        &[
            "error: invalid value 'cube' for '--domain <DOMAIN>'",
            "poly, box, oct",
        ],
    ),
    (
        "lra analyse --fits --fits",
        &["error: the argument '--fits' cannot be used multiple times"],
    ),
    ("lra analyse a b", &["error: unexpected argument 'b' found"]),
    (
        "lra calc --json",
        &["error: unexpected argument '--json' found"],
    ),
    (
        "lra analyse --version",
        &["error: unexpected argument '--version' found"],
    ),
    (
        "lra back",
        &[
            "error: the following required arguments were not provided",
            "--point <N>",
        ],
    ),
    (
        "lra analyse --best --limited",
        &["error: these options can't be given together"],
    ),
    (
        "lra analyse --thresholds --domain oct",
        &["error: these options can't be given together"],
    ),
];

/// Whether the line isn't taken, and these parts are reported of it.
fn tells(alloc: Global, line: &str, parts: &[&str]) -> Result<bool, AllocError> {
    let words = words_of(alloc, line)?;
    match read_request(alloc, &words)? {
        Request::Refuse(why) => {
            let ended = why.ends_with("For more information, try '--help'.\n");
            Ok(ended && parts.iter().all(|part| why.contains(part)))
        }
        _ => Ok(false),
    }
}

#[test]
fn refusals_say_why(rt: HostRuntime) {
    for (line, parts) in FAULTS.iter() {
        let told = tells(rt.alloc(), line, parts);
        assert!(rt; told == Ok(true), "{line}");
    }
}
