// How a call of the analyser ends.
ghost use Rattle.std.specs.Prelude.{◌≡◌};
ghost use Rattle.lra_command_answers.specs.Exit.{exit_of};

/// How a call of the analyser's `run` ended.
#[derive(Clone, Copy, Debug, PartialEq, Eq)]
pub enum Status {
    /// The report, or what is reported about a sample's, is written, and each assertion is proved; or a script's output
    /// is.
    Proved,
    /// The report, or what is reported about a sample's, is written, and some verdict is unknown.
    Unknown,
    /// The refusal of the source or the script is written.
    Refused,
    /// The words name no command; this is written.
    Usage,
    /// The source failed; nothing is written.
    ReadFault,
    /// The sink failed; a prefix of the text is written.
    WriteFault,
    /// Memory ran out; nothing is written.
    Memory,
}

impl Status {
    /// The exit number of the program, 0 to 6 in the order of the variants.
    pub fn exit_number(self) -> u8
        ensures { result ≡ exit_of self }
    {
        match self {
            Status::Proved => 0,
            Status::Unknown => 1,
            Status::Refused => 2,
            Status::Usage => 3,
            Status::ReadFault => 4,
            Status::WriteFault => 5,
            Status::Memory => 6,
        }
    }
}
