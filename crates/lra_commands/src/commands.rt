// What each command reads and answers: a row for each.
ghost use Rattle.std.specs.Prelude.{◌≡◌, ◌<◌, ◌+◌, ◌^◌, length, IfOk};
ghost use Rattle.lra_command_line.specs.ParsedCommand.{IsWithinRanges};
ghost use Rattle.lra_commands.specs.Commands.{limit_of, AnswersInput};

use crate::back_answer::answer_back;
use crate::certificate_answer::answer_certificate;
use crate::certify_answer::answer_certified;
use crate::sample_answer::answer_sample;
use crate::script_answer::answer_script;
use crate::source_answer::answer_source;
use crate::threads_answer::answer_threads;
use lra_base::GREATEST_LENGTH;
use lra_certify_source::GREATEST_CERTIFICATE;
use lra_command_answers::Answer;
use lra_command_line::{Command, PlainCommand};
use std::alloc::{AllocError, Global};

/// The most bytes that a command takes of its input, if it reads it.
#[tactic(auto, unfolding(lra_base::specs::Places::greatest_length))]
pub fn limit_of(command: Command) -> Option<usize>
    ensures { result ≡ limit_of command }
{
    match command {
        Command::Analyse { .. } => Some(GREATEST_LENGTH),
        Command::Sample { .. } => None,
        Command::Back { .. } => Some(GREATEST_LENGTH),
        Command::Threads { .. } => Some(GREATEST_LENGTH),
        Command::Plain(PlainCommand::Calc) => Some(GREATEST_LENGTH),
        Command::Plain(PlainCommand::Verify) => Some(GREATEST_CERTIFICATE),
        Command::Plain(PlainCommand::Certify) => Some(GREATEST_LENGTH),
    }
}

/// What a command answers to these bytes of its input, no more than one past its limit.
pub fn answer_command(alloc: Global, command: Command, bytes: &[u8]) -> Result<Answer, AllocError>
    requires ranges { IsWithinRanges command }
    requires bound { length bytes.now + 1 < 2 ^ 32 }
    ensures { IfOk result (λ a. AnswersInput command bytes.now a.text.items a.status) }
{
    match command {
        Command::Analyse { options, format } => answer_source(alloc, options, format, bytes),
        Command::Sample { seed, size } => answer_sample(alloc, seed, size),
        Command::Back { point } => answer_back(alloc, point, bytes),
        Command::Threads { delay, narrow } => answer_threads(alloc, delay, narrow, bytes),
        Command::Plain(PlainCommand::Calc) => answer_script(alloc, bytes),
        Command::Plain(PlainCommand::Verify) => answer_certificate(alloc, bytes),
        Command::Plain(PlainCommand::Certify) => answer_certified(alloc, bytes),
    }
}
