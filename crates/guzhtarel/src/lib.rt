//! Numeric abstract domains: one crate to list.
//!
//! The names that most users need stand here; the crates they come from stand beside them whole, as `poly` or `maps`.
//! What their clauses cite stands in rooms below `specs`: `Linear` (rows, points, sets of points), `Lists`, `Forms`,
//! `Polyhedra`, `Domains` (what the trait must guarantee, changes, domains that never exceed a limit),
//! `PolyhedronDomain`, `Boxes`, `Octagons`, `Sets`, `Texts`; for domains of one's own `Entries` and `EntryDomains`.
//! Lemmas for proofs over them are in `proofs`: `Ranks`, `Calls`, `Rows`, `RowValues`, `PointSets`, `SameSets`,
//! `PolyhedraOf`, `EntryChanges`, `EntryDomains`.
#![tactic(auto)]

pub use lra_box as boxes;
pub use lra_box::Boxes;
pub use lra_domain as domain;
pub use lra_domain::{
    Backward, BaseDomain, Change, Domain, ExactParts, Exactness, Grown, Included, Mode, Rank,
    change_all, worse,
};
pub use lra_linear_forms as forms;
pub use lra_linear_forms::{LinExpr, Test};
pub use lra_octagon as octagons;
pub use lra_octagon::Octagon;
pub use lra_poly as poly;
pub use lra_poly::{Outcome, Poly};
pub use lra_poly_domain as polyhedra;
pub use lra_poly_domain::{Inclusion, Maximum, Polyhedron};
pub use lra_poly_images as maps;
pub use lra_poly_images::{embed, forget, image, preimage, remove_last, time_elapse};
pub use lra_poly_queries as queries;
pub use lra_poly_queries::{
    Extent, Fraction, Minimum, Relation, least_box, minimise, polyhedra_of, relate, simplify,
};
pub use lra_poly_widening as widening;
pub use lra_poly_widening::{WidenError, limited, rank, standard};
pub use lra_powerset as sets;
pub use lra_powerset::PowerSet;
pub use lra_row as numbers;
pub use lra_row::{Row, RowError};
pub use lra_row_text as texts;
pub use lra_row_text::{Names, generator_text, generators_text, row_text, system_text, value_text};
pub use lra_systems as lists;
pub use lra_systems::{ConKind, ConSys, GenKind, GenSys, MembershipAnswer};
