// What a script must get: its output or its refusal.
ghost use Rattle.std.specs.Prelude.{IfOk};
ghost use Rattle.lra_commands.specs.ScriptAnswer.{AnswersScript};

use lra_calc::{CalcError, script};
use lra_command_answers::{Answer, Status};
use std::alloc::{AllocError, Global};

/// The output or the refusal of a script.
#[tactic(auto, using(crate::proofs::ScriptOutcomes::deserving))]
pub fn answer_script(alloc: Global, bytes: &[u8]) -> Result<Answer, AllocError>
    ensures { IfOk result (λ a. AnswersScript bytes.now a.text.items a.status) }
{
    match script(alloc, bytes) {
        Ok(text) => Ok(Answer {
            text,
            status: Status::Proved,
        }),
        Err(CalcError::Refused(refusal)) => Ok(Answer {
            text: refusal.text(alloc)?.into_bytes(),
            status: Status::Refused,
        }),
        Err(CalcError::Memory) => Err(AllocError),
    }
}
