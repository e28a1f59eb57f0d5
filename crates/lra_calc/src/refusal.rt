//! Why a script is refused.

ghost use Rattle.std.specs.Fmt.{decimal};
ghost use Rattle.std.specs.Prelude.{◌≡◌, ◌++◌, codes, IfOk, OnOk, string_bytes};
ghost use Rattle.lra_row_text.specs.Texts.{text_line};
ghost use Rattle.lra_calc.specs.Script as script;
ghost use Rattle.lra_calc.specs.Views.{fault_of, refusal_of};

use lra_base::Place;
use std::alloc::{AllocError, AllocFailed, Global};
use std::fmt::Write;

/// Why a line is refused.
#[derive(Debug)]
pub enum Fault {
    /// The line is none of the format, or the first is no `dims`, or a later one is.
    BadLine,

    /// The line uses a name under which no set was made before.
    UnknownName(String),

    /// A row or a point has another count of numbers than is needed.
    WrongDimension { count: usize, needed: usize },

    /// The set that is to be widened isn't in the other; its first generator outside, as it is shown.
    NotIncluded(String),
}

impl Drop for Fault {
    fn drop(self) {
        match self {
            Fault::BadLine => {}
            Fault::UnknownName(_) => {}
            Fault::WrongDimension {
                count: _,
                needed: _,
            } => {}
            Fault::NotIncluded(_) => {}
        }
    }
}

/// Why a script is refused.
#[derive(Debug)]
pub enum CalcRefusal {
    /// It has more than 65,536 bytes; the place of the first that is too many.
    TooLong(Place),

    /// The first line that is refused, from 1.
    Line { number: usize, fault: Fault },
}

impl Drop for CalcRefusal {
    fn drop(self) {
        match self {
            CalcRefusal::TooLong(_) => {}
            CalcRefusal::Line {
                number: _,
                fault: _,
            } => {}
        }
    }
}

fn dimension_text(alloc: Global, count: usize, needed: usize) -> Result<String, AllocError>
    ensures { IfOk result (λ text. string_bytes text ≡ script.fault_text (script.WrongDimension count needed)) }
{
    format!(in alloc; "WrongDimension {count} {needed}")
}

impl Fault {
    /// The fault and what it names: `BadLine`, `UnknownName NAME`, `WrongDimension COUNT NEEDED`, `NotIncluded
    /// GENERATOR`.
    pub fn text(&self, alloc: Global) -> Result<String, AllocError>
        ensures { IfOk result (λ text. string_bytes text ≡ script.fault_text (fault_of self.now)) }
    {
        match self {
            Fault::BadLine => String::from_str(alloc, "BadLine"),
            Fault::UnknownName(name) => format!(in alloc; "UnknownName {name}"),
            Fault::WrongDimension { count, needed } => dimension_text(alloc, *count, *needed),
            Fault::NotIncluded(generator) => format!(in alloc; "NotIncluded {generator}"),
        }
    }
}

fn push_too_long(text: &mut String, place: Place) -> Result<(), AllocError>
    ensures { OnOk result (string_bytes text.new ≡ string_bytes text.old
        ++ script.script_refusal_text (script.TooLong place)) }
{
    let Place { line, column } = place;
    writeln!(text, "refused 1 TooLong at {line}:{column}")
}

fn too_long_text(alloc: Global, place: Place) -> Result<String, AllocError>
    ensures { IfOk result
        (λ text. string_bytes text ≡ script.script_refusal_text (script.TooLong place)) }
{
    let mut text = String::new(alloc);
    push_too_long(&mut text, place)?;
    Ok(text)
}

fn push_line(text: &mut String, number: usize, fault: &str) -> Result<(), AllocError>
    ensures { OnOk result (string_bytes text.new ≡ string_bytes text.old
        ++ text_line (codes "refused line " ++ decimal number ++ codes " " ++ fault.now)) }
{
    writeln!(text, "refused line {number} {fault}")
}

impl CalcRefusal {
    /// The line that is written in place of all output: `refused 1 TooLong at LINE:COLUMN`, or `refused line NUMBER`
    /// and the fault.
    pub fn text(&self, alloc: Global) -> Result<String, AllocError>
        ensures { IfOk result (λ text. string_bytes text ≡ script.script_refusal_text (refusal_of self.now)) }
    {
        match self {
            CalcRefusal::TooLong(place) => too_long_text(alloc, *place),
            CalcRefusal::Line { number, fault } => {
                let fault = fault.text(alloc)?;
                let mut text = String::new(alloc);
                push_line(&mut text, *number, fault.as_str())?;
                Ok(text)
            }
        }
    }
}

/// Why a script gave no output.
#[derive(Debug, Drop)]
pub enum CalcError {
    /// The script is refused.
    Refused(CalcRefusal),

    /// There was no memory.
    Memory,
}

impl From<AllocError> for CalcError {
    ghost use Rattle.lra_calc.specs.declared.refusal.CalcError.TheVariants as calc;

    ghost from_gives = { λ _ error. error ≡ calc.Memory };

    fn from(_failed: AllocError) -> CalcError {
        CalcError::Memory
    }
}

/// Why a line was not carried out.
#[derive(Debug, Drop)]
pub enum LineError {
    /// The line is refused.
    Refused(Fault),

    /// There was no memory.
    Memory,
}

impl From<AllocError> for LineError {
    ghost use Rattle.lra_calc.specs.declared.refusal.LineError.TheVariants as line;

    ghost from_gives = { λ _ error. error ≡ line.Memory };

    fn from(_failed: AllocError) -> LineError {
        LineError::Memory
    }
}

impl<T: Drop> From<AllocFailed<T>> for LineError {
    ghost use Rattle.lra_calc.specs.declared.refusal.LineError.TheVariants as line;

    ghost from_gives = { λ _ error. error ≡ line.Memory };

    fn from(_failed: AllocFailed<T>) -> LineError {
        LineError::Memory
    }
}
