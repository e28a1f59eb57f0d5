//! Places in a source, and the causes for which a source is refused.

/// A line and a byte in it, both from 1; a line feed ends a line.
#[derive(Clone, Copy, PartialEq, Eq, Debug)]
pub struct Place {
    pub line: u32,
    pub column: u32,
}

/// Why a source is refused.
#[derive(Clone, Copy, PartialEq, Eq, Debug)]
pub enum Cause {
    /// The source has more than 65,536 bytes.
    TooLong,
    /// A byte begins no token.
    BadByte,
    /// A word that begins with a digit is no literal, or is over 2^63 - 1.
    BadLiteral,
    /// No source begins with the tokens up to this one.
    Syntax,
    /// The 65th level of nesting.
    TooDeep,
    /// No function `main` without parameters.
    NoMain,
    /// No variable, or for a call no function, of the name is in scope.
    UnknownName,
    /// Declared twice in one scope.
    DuplicateName,
    /// Another number of arguments; a result that a function doesn't have is used or given.
    BadCall,
    /// `break` outside a loop or `switch`, or `continue` outside a loop.
    Misplaced,
    /// A call by which a function reaches itself.
    Recursive,
    /// More than `GREATEST_LIVE` variables live at a point.
    TooManyVariables,
    /// Point 2,049, or a call path of 33 calls.
    TooManyPoints,
    /// A value, or `default`, a second time in one `switch`.
    DuplicateCase,
    /// An array without elements, or with more than `GREATEST_ELEMENTS`.
    BadLength,
    /// An array's name without an index, or a variable's with one.
    NotArray,
    /// Not both of `t1` and `t2` are defined without parameters, if threads are asked for.
    NoThreads,
}

impl Cause {
    ghost use Rattle.std.specs.Prelude.{◌≡◌};
    ghost use Rattle.lra_base.specs.Causes.{cause_number, cause_name};

    /// The number of the cause, from 1.
    pub fn number(self) -> u32
        ensures { result ≡ cause_number self }
    {
        match self {
            Cause::TooLong => 1,
            Cause::BadByte => 2,
            Cause::BadLiteral => 3,
            Cause::Syntax => 4,
            Cause::TooDeep => 5,
            Cause::NoMain => 6,
            Cause::UnknownName => 7,
            Cause::DuplicateName => 8,
            Cause::BadCall => 9,
            Cause::Misplaced => 10,
            Cause::Recursive => 11,
            Cause::TooManyVariables => 12,
            Cause::TooManyPoints => 13,
            Cause::DuplicateCase => 14,
            Cause::BadLength => 15,
            Cause::NotArray => 16,
            Cause::NoThreads => 17,
        }
    }

    /// The name of the cause.
    pub fn name(self) -> &'static str
        ensures { result.now ≡ cause_name self }
    {
        match self {
            Cause::TooLong => "TooLong",
            Cause::BadByte => "BadByte",
            Cause::BadLiteral => "BadLiteral",
            Cause::Syntax => "Syntax",
            Cause::TooDeep => "TooDeep",
            Cause::NoMain => "NoMain",
            Cause::UnknownName => "UnknownName",
            Cause::DuplicateName => "DuplicateName",
            Cause::BadCall => "BadCall",
            Cause::Misplaced => "Misplaced",
            Cause::Recursive => "Recursive",
            Cause::TooManyVariables => "TooManyVariables",
            Cause::TooManyPoints => "TooManyPoints",
            Cause::DuplicateCase => "DuplicateCase",
            Cause::BadLength => "BadLength",
            Cause::NotArray => "NotArray",
            Cause::NoThreads => "NoThreads",
        }
    }
}

/// The first fault of a source, and where it is.
#[derive(Clone, Copy, PartialEq, Eq, Debug)]
pub struct Refusal {
    pub cause: Cause,
    pub place: Place,
}
