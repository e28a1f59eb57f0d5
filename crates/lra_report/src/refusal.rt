//! The text of a source's refusal.
ghost use Rattle.std.specs.Fmt.{decimal};
ghost use Rattle.std.specs.Prelude.{◌≡◌, ◌++◌, codes, IfOk, OnOk, string_bytes};
ghost use Rattle.lra_row_text.specs.Texts.{text_line};
ghost use Rattle.lra_report.specs.{RefusalText.refusal_text, ReportText.place_text};

use lra_base::{Place, Refusal};
use std::alloc::{AllocError, Global};
use std::fmt::Write;

/// Adds the line of a refusal with this number and name.
fn push_refusal(text: &mut String, number: u32, name: &str, place: Place) -> Result<(), AllocError>
    ensures { OnOk result (string_bytes text.new ≡ string_bytes text.old
        ++ text_line (codes "refused " ++ decimal number ++ codes " " ++ name.now
        ++ codes " at " ++ place_text place)) }
{
    let Place { line, column } = place;
    writeln!(text, "refused {number} {name} at {line}:{column}")
}

/// `refused NUMBER NAME at LINE:COLUMN` with a line feed.
pub fn refusal_text(alloc: Global, refusal: Refusal) -> Result<String, AllocError>
    ensures { IfOk result (λ text. string_bytes text ≡ refusal_text refusal.cause refusal.place) }
{
    let mut text = String::new(alloc);
    let Refusal { cause, place } = refusal;
    push_refusal(&mut text, cause.number(), cause.name(), place)?;
    Ok(text)
}
