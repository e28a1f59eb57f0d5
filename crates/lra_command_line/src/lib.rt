//! The words of the command line, and the command that they give.
//!
//! [`words::parse_command`] declares the command line to `clap`, parses the words and answers the command
//! of the matches; [`requests::read_request`] answers what the program does before its command runs: the file that
//! is named, help, the version, or why the words aren't accepted.
#![tactic(auto)]

mod command_line;
pub mod commands;
pub mod law;
pub mod requests;
mod texts;
pub mod words;

pub use commands::{Command, Format, PLAIN_COMMANDS, PlainCommand};
pub use law::{each_list, one_file};
pub use lra_options::default_options;
pub use requests::{Request, read_request};
pub use words::{Refusal, find_command, parse_command};
