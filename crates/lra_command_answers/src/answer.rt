// What is written.
ghost use Rattle.std.specs.Prelude.{◌≡◌, IfOk};
ghost use Rattle.lra_report.specs.RefusalText as refusal_line;

use crate::status::Status;
use lra_front_end::Refusal;
use lra_report::refusal_text;
use std::alloc::{AllocError, Global};

/// A text to be written, and the status with which it is written.
#[derive(Drop)]
pub struct Answer {
    pub text: Vec<u8>,
    pub status: Status,
}

/// The text of a refusal.
pub fn answer_refusal(alloc: Global, refusal: Refusal) -> Result<Answer, AllocError>
    ensures text { IfOk result (λ a. a.text.items ≡ refusal_line.refusal_text refusal.cause refusal.place) }
    ensures status { IfOk result (λ a. a.status ≡ Status.Refused) }
{
    Ok(Answer {
        text: refusal_text(alloc, refusal)?.into_bytes(),
        status: Status::Refused,
    })
}
