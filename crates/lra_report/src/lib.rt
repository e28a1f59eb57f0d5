//! Reports, and their text; what is written of going back; the text of a refusal.
//!
//! What a report has and claims of a program, and its text, are definitions: `specs/` is to be read from top
//! to bottom, in the order of `specs/Lib.antt`. The views of these types are those reports; [`text`] writes
//! that text.
#![tactic(auto)]

mod back;
mod law;
mod names;
mod part;
mod path;
mod refusal;
mod report;
mod verdict_kinds;
mod writing;

pub use back::{BackReport, back_text};
pub use law::one_text;
pub use lra_base::Place;
pub use lra_operations::Site;
pub use lra_options::{Options, best_options, default_options};
pub use lra_resolution_spec::{Labels, TranslationUnit};
pub use lra_row::Row;
pub use lra_row_text::ConSys;
pub use names::names_at;
pub use part::Part;
pub use path::{CallPlace, path_text};
pub use refusal::refusal_text;
pub use report::{Point, PointReport, Report, Verdict, count_proved, count_unknown};
pub use verdict_kinds::{VERDICT_KINDS, VerdictKind};
pub use writing::{push_counts, push_flag, push_points, push_verdicts, text};
