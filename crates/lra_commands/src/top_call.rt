// The top call.
ghost use Rattle.std.specs.Prelude.{◌≡◌, ◌<◌, ◌+◌, ◌^◌, Option, length, map, string_bytes, IfOk, Some};
ghost use Rattle.lra_command_line.specs.{ParsedCommand.IsWithinRanges, declared.commands.Command.Command};
ghost use Rattle.lra_commands.specs.{Commands.limit_of, Commands.asked_limit, Promises.RunPromises};
ghost use Rattle.lra_commands.specs.Prepared.{IsInputText, IsTaken, IsReadBy, PrepareCause, Ending};
ghost use Rattle.lra_commands.specs.Run.{usage_text, IsAsked, IsAnswerToWords};

use crate::commands::{answer_command, limit_of};
use lra_command_answers::{Answer, Status};
use lra_command_line::{Command, find_command};
use lra_io::{ReadError, Sink, Source, read_whole, write_whole};
use std::alloc::{AllocError, Global};

/// Why there is no text.
#[derive(Clone, Copy, Debug, PartialEq, Eq)]
pub enum NoAnswer {
    ReadFault,
    Memory,
}

impl From<AllocError> for NoAnswer {
    ghost use Rattle.std.specs.Prelude.{◌≡◌};
    ghost use Rattle.lra_commands.specs.declared.top_call.NoAnswer.TheVariants.{Memory};

    ghost from_gives = { λ _ e. e ≡ Memory };

    fn from(_: AllocError) -> Self {
        NoAnswer::Memory
    }
}

/// The answer to words that are no command.
fn refuse_words(alloc: Global) -> Result<Answer, AllocError>
    ensures text { IfOk result (λ a. a.text.items ≡ usage_text) }
    ensures status { IfOk result (λ a. a.status ≡ Status.Usage) }
{
    Ok(Answer {
        text: String::from_str(alloc, "refused usage\n")?.into_bytes(),
        status: Status::Usage,
    })
}

/// The bytes of an input, at most one past a limit.
#[tactic(auto, using(crate::proofs::Reading::reading))]
fn read_within<S: Source>(alloc: Global, limit: usize, source: &mut S) -> Result<Vec<u8>, NoAnswer>
    requires { limit + 2 < 2 ^ 32 }
    ensures taken { IfOk result (λ bytes. IsTaken (Some limit) (S.left source.old) (S.left source.new) bytes.items) }
    ensures reads { IsReadBy (Some limit) (S.left source.old) (S.left source.new) result }
    ensures bound { IfOk result (λ bytes. length bytes.items + 1 < 2 ^ 32) }
    ensures cause { PrepareCause (S.faults source.old) (S.faults source.new) result }
{
    match read_whole(alloc, source, limit) {
        Ok(bytes) => Ok(bytes),
        Err(ReadError::TooLong(bytes)) => Ok(bytes),
        Err(ReadError::Failed) => Err(NoAnswer::ReadFault),
        Err(ReadError::Memory) => Err(NoAnswer::Memory),
    }
}

/// The bytes that a command reads; none if it leaves its input as it is.
#[tactic(auto, using(crate::proofs::Reading::found_limit))]
fn read_input<S: Source>(
    alloc: Global,
    command: Command,
    source: &mut S,
) -> Result<Vec<u8>, NoAnswer>
    ensures taken { IfOk result (λ bytes.
        IsTaken (limit_of command) (S.left source.old) (S.left source.new) bytes.items) }
    ensures reads { IsReadBy (limit_of command) (S.left source.old) (S.left source.new) result }
    ensures bound { IfOk result (λ bytes. length bytes.items + 1 < 2 ^ 32) }
    ensures cause { PrepareCause (S.faults source.old) (S.faults source.new) result }
{
    match limit_of(command) {
        Some(limit) => read_within(alloc, limit, source),
        None => Ok(Vec::new(alloc)),
    }
}

/// What a command answers to its input.
#[tactic(auto, using(crate::proofs::CommandOutcomes::commanding))]
fn prepare_command<S: Source>(
    alloc: Global,
    command: Command,
    source: &mut S,
) -> Result<Answer, NoAnswer>
    requires { IsWithinRanges command }
    ensures deserved { IfOk result (λ a. IsInputText command (S.left source.old) a.text.items a.status) }
    ensures reads { IsReadBy (limit_of command) (S.left source.old) (S.left source.new) result }
    ensures cause { PrepareCause (S.faults source.old) (S.faults source.new) result }
{
    let bytes = read_input(alloc, command, source)?;
    Ok(answer_command(alloc, command, &bytes)?)
}

/// Everything but the writing.
#[tactic(auto, using(crate::proofs::CommandOutcomes::preparing))]
fn prepare<S: Source>(alloc: Global, words: &[String], source: &mut S) -> Result<Answer, NoAnswer>
    ensures deserved { IfOk result (λ a.
        IsAnswerToWords (map string_bytes words.now) (S.left source.old) a.text.items a.status) }
    ensures reads { (asked : Option Command) → IsAsked (map string_bytes words.now) asked →
        IsReadBy (asked_limit asked) (S.left source.old) (S.left source.new) result }
    ensures cause { PrepareCause (S.faults source.old) (S.faults source.new) result }
{
    match find_command(alloc, words)? {
        Some(command) => prepare_command(alloc, command, source),
        None => Ok(refuse_words(alloc)?),
    }
}

/// The whole, by its parts.
fn answer_words<S: Source, K: Sink>(
    alloc: Global,
    words: &[String],
    source: &mut S,
    sink: &mut K,
) -> Status
    ensures { Ending (record {
      words = map string_bytes words.now;
      left = S.left source.old;
      left_now = S.left source.new;
      read_faults = S.faults source.old;
      read_faults_now = S.faults source.new;
      held = K.held sink.old;
      held_now = K.held sink.new;
      spare = K.spare sink.old;
      write_faults = K.faults sink.old;
      write_faults_now = K.faults sink.new;
    }) result }
{
    let answer = match prepare(alloc, words, source) {
        Ok(answer) => answer,
        Err(NoAnswer::ReadFault) => return Status::ReadFault,
        Err(NoAnswer::Memory) => return Status::Memory,
    };
    match write_whole(sink, &answer.text) {
        Ok(()) => answer.status,
        Err(_) => Status::WriteFault,
    }
}

/// Reads the words, reads the input of their command, if it reads one, and writes what it must get: a report, a
/// summary, an output, a certificate, what is verified, what is left before an assertion fails, what is found of
/// several threads, or a refusal.
///
/// `words` has the program's name first. The whole text is made before the first byte is written. Each promise is a
/// field of `RunPromises`, over the words and what source and sink report before the call and after it.
pub fn run<S: Source, K: Sink>(
    alloc: Global,
    words: &[String],
    source: &mut S,
    sink: &mut K,
) -> Status
    ensures { RunPromises (record {
      words = map string_bytes words.now;
      left = S.left source.old;
      left_now = S.left source.new;
      read_faults = S.faults source.old;
      read_faults_now = S.faults source.new;
      held = K.held sink.old;
      held_now = K.held sink.new;
      spare = K.spare sink.old;
      write_faults = K.faults sink.old;
      write_faults_now = K.faults sink.new;
    }) result }
{
    answer_words(alloc, words, source, sink)
}
