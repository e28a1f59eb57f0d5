//! The one call of the analyser: from the words of a command line and the bytes of its input to the text of a report,
//! of a sample's summary, of a script's output, of a certificate, of what is verified, of what going back from an
//! assertion leaves, of what is found of several threads, or of a refusal.
#![tactic(auto)]

mod back_answer;
mod certificate_answer;
mod certify_answer;
mod commands;
mod law;
mod sample_answer;
mod script_answer;
mod source_answer;
mod threads_answer;
mod top_call;

pub use law::{each_certificate_answer, one_back_refusal, one_written_report};
pub use lra_command_answers::Status;
pub use lra_command_line::{Request, read_request};
pub use lra_io::{MemSink, MemSource};
pub use top_call::run;
