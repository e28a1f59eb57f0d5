//! The first step into a statement or a declarator, when a program's calls are written out as a tree of operations: it
//! is written, or a place opens in which a part of it is. Frames, points up to a limit, and the open places.
#![tactic(auto)]

mod arrays;
mod cases;
mod frame;
mod lone;
mod opening;
mod points;
mod returns;
mod stack;

pub use arrays::open_array;
pub use cases::go_on_cases;
pub use frame::{Around, Caller, Frame, Repeated, Source};
pub use lra_inline_sound::Labels;
pub use opening::{open_declaration, open_rounds, open_stmt};
pub use points::{GREATEST_CALLS, InlineError, Limit, add_point, finish};
pub use returns::leave_call;
pub use stack::{
    Branches, CalledFrom, CaseRow, Forked, InlineContext, InlineFrame, ItemRow, Next, NextCase,
    Part, Written, close,
};
