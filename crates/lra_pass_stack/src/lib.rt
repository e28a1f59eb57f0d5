//! The places where a pass over a tree of operations is under way, what must hold there, and what comes next in rows,
//! choices and `switch`es.
//! If a function has a type parameter `F: Interfere<D>`, its contract speaks of a pass among others
//! of that type, whichever they are: nothing here calls them.
#![tactic(auto)]

mod choices;
mod rows;
mod selections;
mod stack;

pub use choices::{go_on_choice, join_branches, open_choice};
pub use rows::{go_on_row, open_row};
pub use selections::{go_on_selection, open_selection};
pub use stack::{
    BranchFrame, ChoiceFrame, Entering, GrowingFrame, Narrowing, NarrowingFrame, Next, PassFrame,
    PassStack, RowFrame, SelectFrame, Selecting, Step, passed,
};
