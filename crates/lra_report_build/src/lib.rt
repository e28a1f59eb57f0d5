//! From what an analysis found to the report of a source: its points in order, with the paths, places and names that
//! the source has there, and the values of a domain as states: each part by its rows, and over polyhedra by its
//! generators too.
#![tactic(auto)]

mod laws;
mod listing;
mod polyhedron;
mod rows;
mod sets;
mod show;
mod states;

pub use laws::{boxes_are_shown, octagons_are_shown};
pub use listing::{
    Findings, Outline, list, list_points, list_verdicts, names_of_globals, number_of,
};
pub use lra_octagon::{Boxes, Octagon};
pub use lra_options::DEFAULT_OPTIONS;
pub use lra_powerset::PowerSet;
pub use lra_report::{Report, Row};
pub use lra_row_text::Names;
pub use show::Show;
pub use states::states_of;
