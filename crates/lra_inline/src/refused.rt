//! What a program is refused for that passes a limit, if its source has these labels.

ghost use Rattle.std.specs.Prelude.{◌≡◌};
ghost use Rattle.lra_inline.specs.Crates.lra_syntax.Labels.{label_at, called_place};
ghost use Rattle.lra_inline_steps.specs.Limits.{refusal_of};

use lra_base::{Cause, Place, Refusal};
use lra_inline_steps::{Labels, Limit};

/// Where a source begins.
const START: Place = Place { line: 1, column: 1 };

/// Where the name stands that the statement or declarator with this label calls.
fn find_called(labels: &Labels, label: usize) -> Place
    ensures { result ≡ called_place (label_at labels.now.labels label) }
{
    match labels.get(label) {
        Some(found) => match &found.called {
            Some(name) => name.place,
            None => START,
        },
        None => START,
    }
}

/// What a source with these labels is refused for, since its program passes the limit.
pub fn refusal(limit: Limit, labels: &Labels) -> Refusal
    ensures { result ≡ refusal_of labels.now.labels limit }
{
    match limit {
        Limit::Variables(label) => Refusal {
            cause: Cause::TooManyVariables,
            place: labels.place(label),
        },
        Limit::Points(label) => Refusal {
            cause: Cause::TooManyPoints,
            place: labels.place(label),
        },
        Limit::Calls(label) => Refusal {
            cause: Cause::TooManyPoints,
            place: find_called(labels, label),
        },
    }
}
