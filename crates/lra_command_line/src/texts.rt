//! What help reports, and the version. No clause speaks of these texts: they are only tested.

use crate::command_line::{Argument, Subcommand};
use crate::commands::PlainCommand;
use lra_options::{FlagOption, NumberOption};

/// The program's version, with the toolchain's logic by which it is proved.
pub(crate) const VERSION: &str = "0.9.0 (logic dac8208d650f15bf)";

/// What the program does.
pub(crate) const ABOUT: &str =
    "Finds what always holds in integer C: linear-relation analysis, proved.";

/// An example, and what the exit status says: the end of each help.
macro_rules! ending {
    ($example:literal) => {
        concat!(
            "Example:\n  ",
            $example,
            "\n\nExit status:\n",
            "  0  each verdict is good, or the script ran, or the certificate is verified\n",
            "  1  a verdict is unknown\n",
            "  2  the source, the script or the certificate is refused; a line says why\n",
            "  3  the words are no command\n",
            "  4  the input can't be read\n",
            "  5  the output can't be written\n",
            "  6  memory ran out"
        )
    };
}

/// The end of the program's own help.
pub(crate) const AFTER_HELP: &str = ending!("lra analyse --best program.c");

impl Subcommand {
    /// What it does.
    pub(crate) fn about(self) -> &'static str {
        match self {
            Subcommand::Analyse => {
                "Find what holds at each point of a C source, and judge its assertions"
            }
            Subcommand::Sample => "Make a C source from a number, analyse it, print a summary",
            Subcommand::Back => "Go back from an assertion: from which stores it can still fail",
            Subcommand::Threads => "Analyse a C source of several threads, over boxes",
            Subcommand::Plain(PlainCommand::Calc) => "Run a script about polyhedra",
            Subcommand::Plain(PlainCommand::Verify) => "Check a certificate of a C source",
            Subcommand::Plain(PlainCommand::Certify) => "Write a certificate of a C source",
        }
    }

    /// The end of its help.
    pub(crate) fn after_help(self) -> &'static str {
        match self {
            Subcommand::Analyse => ending!("lra analyse --domain oct --fits program.c"),
            Subcommand::Sample => ending!("lra sample --seed 1 --size 100"),
            Subcommand::Back => ending!("lra back --point 9 program.c"),
            Subcommand::Threads => ending!("lra threads --delay 2 program.c"),
            Subcommand::Plain(PlainCommand::Calc) => ending!("lra calc script.calc"),
            Subcommand::Plain(PlainCommand::Verify) => ending!("lra verify program.cert"),
            Subcommand::Plain(PlainCommand::Certify) => {
                ending!("lra certify program.c > program.cert")
            }
        }
    }
}

/// What a number is, with its range.
fn number_help(option: NumberOption) -> &'static str {
    match option {
        NumberOption::Parts => "The most parts of a state, 1 to 16",
        NumberOption::Delay => "Rounds of joins before a loop is widened, 0 to 8",
        NumberOption::Narrow => "Rounds of narrowing after that, 0 to 4",
    }
}

/// What a flag does.
fn flag_help(option: FlagOption) -> &'static str {
    match option {
        FlagOption::Limited => "Widen a loop no further than its own condition",
        FlagOption::Thresholds => {
            "Widen no further than the program's constants and conditions (poly)"
        }
        FlagOption::Fits => "Tell also which statements can't overflow",
    }
}

impl Argument {
    /// What it is, with its range.
    pub(crate) fn help(self) -> &'static str {
        match self {
            Argument::Domain => "The abstract domain",
            Argument::Number(option) => number_help(option),
            Argument::Flag(option) => flag_help(option),
            Argument::Best => {
                "Choose for me: --parts 4 --thresholds; beside --fits and --json alone"
            }
            Argument::Json => "Write the report as JSON",
            Argument::Seed => "The number that the source is made from, 0 to 18446744073709551615",
            Argument::Size => "How many blocks the source has, 0 to 400",
            Argument::Point => "The number of the assertion's point, 1 to 2048",
            Argument::File => "The file to be read; - or none: standard input",
        }
    }
}
