//! What a script writes.

ghost use Rattle.std.specs.Prelude.{List, ℕ, suc, ℤ, Result, None, ◌≡◌, ◌<◌, ◌^◌, ◌++◌, length, map, Some};
ghost use Rattle.std.specs.Prelude.{string_bytes, IfOk, IfSome, OnOk, option_map};
ghost use Rattle.lra_calc.specs.Crates.lra_duality.Inclusions.{IsInclusion, TellsInclusion};
ghost use Rattle.lra_calc.specs.Crates.lra_duality.Maxima.{IsMaximum, ReportsMaximum};
ghost use Rattle.lra_calc.specs.Crates.lra_duality.declared.inclusion.Inclusion.{Inclusion};
ghost use Rattle.lra_calc.specs.Crates.lra_linear_spec.Descriptions.{Con, Gen};
ghost use Rattle.lra_calc.specs.Crates.lra_linear_spec.Polyhedra.{Polyhedron, IsPolyhedron};
ghost use Rattle.lra_calc.specs.Crates.{lra_duality.declared.maximum.Maximum.Maximum, lra_linear_spec.Points.SameSet};
ghost use Rattle.lra_script.specs.ScriptText as text;
ghost use Rattle.lra_script.specs.LineForms as form;
ghost use Rattle.lra_calc.specs.Script as spec;
ghost use Rattle.lra_script.specs.Views.{texts, said, IsLine};
ghost use Rattle.lra_calc.specs.Views.{session_of, IsSession, Gives, StepsTo, Ends, Answers};

use crate::refusal::{CalcError, CalcRefusal, Fault, LineError};
use crate::session::Session;
use lra_base::{GREATEST_LENGTH, place_after};
use lra_script::{Line, is_skipped, raw_lines, read_line, without_return, words};
use std::alloc::{AllocError, Global};
use std::fmt::Write;

/// Carries out what a line says: the first gives the dimensions.
fn carry_out(
    alloc: Global,
    number: usize,
    session: Option<Session>,
    line: &Line,
) -> Result<Session, LineError>
    requires session { IfSome session IsSession }
    requires line { IsLine line.now }
    ensures gives { Gives session_of result
        (spec.AfterForm number (option_map session_of session) (Some (said line.now))) }
    ensures sound { IfOk result IsSession }
{
    match (session, line) {
        (None, Line::Dims(n)) => Ok(Session::new(alloc, *n)),
        (None, _) => Err(LineError::Refused(Fault::BadLine)),
        (Some(mut session), line) => {
            session.carry_out(alloc, number, line)?;
            Ok(session)
        }
    }
}

/// Carries out the line of a number.
fn perform(
    alloc: Global,
    number: usize,
    session: Option<Session>,
    line: &[u8],
) -> Result<Session, LineError>
    requires { IfSome session IsSession }
    ensures gives { Gives session_of result
        (spec.AfterForm number (option_map session_of session) (form.line_of (text.words line.now))) }
    ensures sound { IfOk result IsSession }
{
    let words = words(alloc, line)?;
    match read_line(alloc, &words)? {
        Some(line) => carry_out(alloc, number, session, &line),
        None => Err(LineError::Refused(Fault::BadLine)),
    }
}

/// What comes after the line of a number, which may be skipped.
fn take_line(
    alloc: Global,
    number: usize,
    session: Option<Session>,
    line: &[u8],
) -> Result<Option<Session>, CalcError>
    requires { IfSome session IsSession }
    ensures steps { StepsTo number session line.now result }
    ensures sound { IfOk result (λ t. IfSome t IsSession) }
{
    if is_skipped(line) {
        return Ok(session);
    }
    match perform(alloc, number, session, line) {
        Ok(session) => Ok(Some(session)),
        Err(LineError::Refused(fault)) => {
            Err(CalcError::Refused(CalcRefusal::Line { number, fault }))
        }
        Err(LineError::Memory) => Err(CalcError::Memory),
    }
}

/// Carries out all lines.
fn run_lines(alloc: Global, lines: &[&[u8]]) -> Result<Option<Session>, CalcError>
    ensures { Ends result (spec.CarriesOut 1 None (map text.without_return (texts lines.now))) }
{
    let mut session = None;
    for (index, line) in lines.iter().enumerate() {
        session = take_line(alloc, index + 1, session, without_return(line))?;
    }
    Ok(session)
}

/// Prints the last line.
fn push_flag(printed: &mut String, flagged: Option<usize>) -> Result<(), AllocError>
    ensures { OnOk result (string_bytes printed.new ≡ string_bytes printed.old ++ spec.flag_text flagged) }
{
    match flagged {
        None => writeln!(printed, "flagged 0"),
        Some(number) => writeln!(printed, "flagged at line {number}"),
    }
}

/// What is written after the last line.
fn output_of(alloc: Global, session: Option<Session>) -> Result<Vec<u8>, AllocError>
    ensures { IfOk result (λ output. output.items ≡ spec.output (option_map session_of session)) }
{
    let (mut printed, flagged) = match session {
        None => (String::new(alloc), None),
        Some(session) => (session.printed, session.flagged),
    };
    push_flag(&mut printed, flagged)?;
    Ok(printed.into_bytes())
}

/// What a script writes whose length is not asked.
fn run(alloc: Global, bytes: &[u8]) -> Result<Vec<u8>, CalcError>
    ensures { Answers result (spec.Runs bytes.now) }
{
    let lines = raw_lines(alloc, bytes)?;
    let session = run_lines(alloc, &lines)?;
    Ok(output_of(alloc, session)?)
}

/// What a script writes, or why it is refused: a script of more than 65,536 bytes, and one with a line that is refused.
/// The lines are carried out in order, and the first that is refused is answered.
#[tactic(auto, using(crate::proofs::SessionLemmas::membership_tells))]
pub fn script(alloc: Global, bytes: &[u8]) -> Result<Vec<u8>, CalcError>
    ensures answer { Answers result (spec.AnswersTo bytes.now) }
    // Whether a script is refused, and why, is given by its lines alone, but for sets that are widened and aren't in
    // the other; and a script of which no line is flagged has one answer.
    ensures one_refusal { (a b : Result (List ℕ) spec.Refusal) → spec.AnswersTo bytes.now a →
        spec.AnswersTo bytes.now b → spec.IsDeterminedByLines a → spec.IsDeterminedByLines b → spec.AgreesWith a b }
    ensures without_widenings { spec.NeverWidens bytes.now → (a : Result (List ℕ) spec.Refusal) →
        spec.AnswersTo bytes.now a → spec.IsDeterminedByLines a }
    ensures one_end { spec.HasOneEnd bytes.now }
    // What an answer to `holds` says of the set that the name stands for, and when it is wide.
    ensures points { (p : Polyhedron) (x : List ℤ) → spec.IsMembershipAnswer p.rows x (spec.membership p.rows x) }
    // What an answer to `include` says of the sets, and an answer to `maximise`.
    ensures inclusions { (p q : Polyhedron) (answer : Inclusion) → IsPolyhedron p →
        IsInclusion q.rows p.generators answer → TellsInclusion p q answer }
    ensures maxima { (p : Polyhedron) (numbers : List ℤ) (answer : Maximum) → IsPolyhedron p →
        length numbers ≡ suc p.dims → IsMaximum numbers p.generators answer → ReportsMaximum p numbers answer }
    // What `show` prints describes the same points twice.
    ensures both { (p : Polyhedron) → IsPolyhedron p → SameSet p.dims (Con p.rows) (Gen p.generators) }
{
    if bytes.len() > GREATEST_LENGTH {
        let place = place_after(&bytes[..GREATEST_LENGTH]);
        return Err(CalcError::Refused(CalcRefusal::TooLong(place)));
    }
    run(alloc, bytes)
}
