//! What the words ask of the program, before a command runs.
ghost use Rattle.std.specs.Prelude.{ℕ, IfOk, List, map, string_bytes};
ghost use Rattle.lra_command_line.specs.Requests.{IsRequest, IsUnasked};

use crate::words::{Unasked, ask};
use std::alloc::{AllocError, Global};

/// What the words ask of the program.
#[derive(PartialEq, Debug, Drop)]
pub enum Request<'a> {
    /// To run their command over the file of this name, or, without one, over standard input.
    Run(Option<&'a str>),
    /// To show this text: help, or the version.
    Show(String),
    /// Nothing that it takes. The text says why, for the user.
    Refuse(String),
}

/// Why options can't stand together, for the user.
const CONFLICT: &str = "\
error: these options can't be given together

  tip: '--best' stands for all but '--fits' and '--json'
  tip: '--thresholds' is for '--domain poly', without '--limited'

For more information, try '--help'.
";

/// The text of an error: help, the version, or what is wrong with the words.
fn text_of(alloc: Global, error: &clap::Error) -> Result<String, AllocError> {
    format!(in alloc; "{error}")
}

/// What words ask of the program that ask for no command.
fn request_without_command<'a>(alloc: Global, why: &Unasked) -> Result<Request<'a>, AllocError>
    ensures { (words : List (List ℕ)) → IsUnasked words why.now → IfOk result (IsRequest words) }
{
    match why {
        Unasked::Memory => Err(AllocError),
        Unasked::Shown(error) => Ok(Request::Show(text_of(alloc, error)?)),
        Unasked::Refused(error) => Ok(Request::Refuse(text_of(alloc, error)?)),
        Unasked::Conflict => Ok(Request::Refuse(String::from_str(alloc, CONFLICT)?)),
    }
}

/// What the words ask of the program; the first word is its name.
///
/// They ask to run a command exactly if [`crate::parse_command`] answers one. Nothing is printed, and no file is
/// opened.
pub fn read_request<'a>(alloc: Global, words: &'a [String]) -> Result<Request<'a>, AllocError>
    ensures { IfOk result (IsRequest (map string_bytes words.now)) }
{
    match ask(alloc, words) {
        Ok(asked) => Ok(Request::Run(asked.file)),
        Err(why) => request_without_command(alloc, &why),
    }
}
