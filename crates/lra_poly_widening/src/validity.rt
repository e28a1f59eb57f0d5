//! Whether rows hold on polyhedra, given by their generators.

ghost use Rattle.std.specs.Option.{MatchOption};
ghost use Rattle.std.specs.Prelude.{◌≡◌, ◌&&◌, ◌++◌, ◌⊎◌, suc, length};
ghost use Rattle.lra_poly_widening.specs.Crates.lra_linear_spec.Kinds.{is_equality};
ghost use Rattle.lra_systems.specs.LinearSystems.{generators};
ghost use Rattle.lra_poly_widening.specs.{Rank.holds_in_range, Validity.IsValidity};

use lra_poly::{Poly, accepts};
use lra_systems::{ConKind, Excess, GenSys, Row};

/// Whether a row holds with each of the generators.
#[derive(Clone, Copy, Debug, PartialEq, Eq)]
pub enum Validity {
    Holds,
    Fails,
    Wide(Excess),
}

impl Validity {
    /// The product that passes the range, if one does.
    pub fn excess(self) -> Option<Excess>
        ensures { MatchOption result ((self ≡ Validity.Holds) ⊎ (self ≡ Validity.Fails)) (λ e. self ≡ Validity.Wide e) }
    {
        match self {
            Validity::Holds => None,
            Validity::Fails => None,
            Validity::Wide(excess) => Some(excess),
        }
    }
}

/// Whether the constraint holds with each of the generators.
pub fn validity_of(row: &Row, kind: ConKind, list: &GenSys) -> Validity
    requires { length row.now ≡ suc list.now.dims }
    ensures { IsValidity (generators list.now) (record { row = row.now; equal = is_equality kind }) result }
{
    let (rows, kinds) = (list.rows(), list.kinds());
    for (place, generator) in rows.iter().enumerate() {
        match row.dot(generator) {
            Ok(product) => {
                if !accepts(kind, kinds[place].goes_both_ways(), product) {
                    return Validity::Fails;
                }
            }
            Err(excess) => return Validity::Wide(excess),
        }
    }
    Validity::Holds
}

/// Whether it holds with each generator of the first, then of the second.
pub fn validity_on_both(row: &Row, kind: ConKind, p: &Poly, q: &Poly) -> Validity
    requires first { length row.now ≡ suc p.now.dims }
    requires second { length row.now ≡ suc q.now.dims }
    ensures { IsValidity (p.now.generators ++ q.now.generators)
        (record { row = row.now; equal = is_equality kind }) result }
{
    match validity_of(row, kind, p.generators()) {
        Validity::Holds => validity_of(row, kind, q.generators()),
        Validity::Fails => Validity::Fails,
        Validity::Wide(excess) => Validity::Wide(excess),
    }
}

/// Whether it holds with each of the generators, and each product stays in the range.
pub fn holds_in_range(row: &Row, kind: ConKind, p: &Poly) -> bool
    requires { length row.now ≡ suc p.now.dims }
    ensures { result ≡ holds_in_range p.now (record { row = row.now; equal = is_equality kind }) }
{
    match validity_of(row, kind, p.generators()) {
        Validity::Holds => true,
        Validity::Fails => false,
        Validity::Wide(_) => false,
    }
}

/// Whether it does with those of the first and of the second.
pub fn holds_on_both(row: &Row, kind: ConKind, p: &Poly, q: &Poly) -> bool
    requires first { length row.now ≡ suc p.now.dims }
    requires second { length row.now ≡ suc q.now.dims }
    ensures { result ≡ (holds_in_range p.now (record { row = row.now; equal = is_equality kind }) &&
        holds_in_range q.now (record { row = row.now; equal = is_equality kind })) }
{
    holds_in_range(row, kind, p) && holds_in_range(row, kind, q)
}
