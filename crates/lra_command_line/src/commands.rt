//! The commands that words can choose.
ghost use Rattle.std.specs.Prelude.{◌≡◌};
ghost use Rattle.lra_command_line.specs.CommandLine.{plain_name};

use lra_options::Options;

/// How a report is written.
#[derive(Clone, Copy, PartialEq, Debug)]
pub enum Format {
    /// As lines.
    Lines,
    /// As one JSON object.
    Json,
}

/// A command without options of its own.
#[derive(Clone, Copy, PartialEq, Eq, Debug)]
pub enum PlainCommand {
    /// Run a script of the library's calls.
    Calc,
    /// Check a certificate of a source.
    Verify,
    /// Write a certificate of a source.
    Certify,
}

/// The commands without options, in the order in which the command line has them.
pub const PLAIN_COMMANDS: [PlainCommand; 3] = [
    PlainCommand::Calc,
    PlainCommand::Verify,
    PlainCommand::Certify,
];

impl PlainCommand {
    /// The command's name on the command line.
    pub fn name(self) -> &'static str
        ensures { result.now ≡ plain_name self }
    {
        match self {
            PlainCommand::Calc => "calc",
            PlainCommand::Verify => "verify",
            PlainCommand::Certify => "certify",
        }
    }
}

/// What the words ask for.
#[derive(Clone, Copy, PartialEq, Debug)]
pub enum Command {
    /// Analyse a source, and write the report.
    Analyse { options: Options, format: Format },
    /// Make a source from a seed and a size, 0 to 400, analyse it and print a summary.
    Sample { seed: u64, size: u32 },
    /// Analyse a source, and go back from the assertion at the point of this number, 1 to 2,048.
    Back { point: u32 },
    /// Analyse a source of several threads, over boxes, with these options of the iteration.
    Threads { delay: u32, narrow: u32 },
    /// What the command's name says alone.
    Plain(PlainCommand),
}
