//! Inclusion of polyhedra.

ghost use Rattle.std.specs.{List.All, Prelude.◌≡◌, Prelude.length};
ghost use Rattle.lra_duality.specs.Crates.lra_systems.LinearSystems.{rows_by_kind, constraints, generators};
ghost use Rattle.lra_duality.specs.Crates.{lra_linear_spec.Descriptions.LinearRow, lra_linear_spec.Kinds.is_equality};
ghost use Rattle.lra_duality.specs.Crates.{lra_linear_spec.Vectors.product, lra_linear_spec.Widening.holds_with};
ghost use Rattle.lra_duality.specs.Inclusions.{IsReply, IsInclusion};

use lra_cone::{ConKind, ConSys};
use lra_descriptions::{GenSys, MembershipAnswer};
use lra_row::Row;

/// Whether each point of one polyhedron is in another. The generators of the one are tried in their order, with each
/// the constraints of the other in theirs; the first pair that doesn't hold decides. If its product passes the range
/// that is `Wide`, with the places of the generator and of the constraint, from 0; else `No`, with the generator's.
#[derive(Clone, Copy, Debug, PartialEq, Eq)]
pub enum Inclusion {
    Yes,
    No(usize),
    Wide(usize, usize),
}

/// Whether a constraint of the kind holds with a generator, of which its product is the value; with a line it holds as
/// an equality.
#[tactic(auto, using(crate::proofs::InclusionLemmas::with_line, crate::proofs::InclusionLemmas::with_ray))]
pub fn accepts(kind: ConKind, line: bool, value: i128) -> bool
    ensures { (r g : LinearRow) → r.equal ≡ is_equality kind → g.equal ≡ line → value ≡ product r.row g.row →
        holds_with r g ≡ result }
{
    if line {
        ConKind::Eq.accepts(value)
    } else {
        kind.accepts(value)
    }
}

// Whether each row holds with the generator: the place of the first that doesn't, or whose product passes the range.
fn reply(generator: &Row, line: bool, rows: &[Row], kinds: &[ConKind]) -> MembershipAnswer
    requires kinds { length kinds.now ≡ length rows.now }
    requires widths { All (λ r. length r ≡ length generator.now) rows.now }
    ensures { IsReply (rows_by_kind is_equality rows.now kinds.now) (record { row = generator.now; equal = line })
        result }
{
    for (place, row) in rows.iter().enumerate() {
        match row.dot(generator) {
            Ok(product) => {
                if !accepts(kinds[place], line, product) {
                    return MembershipAnswer::No(place);
                }
            }
            Err(_) => return MembershipAnswer::Wide(place),
        }
    }
    MembershipAnswer::Yes
}

/// Whether each of the generators meets each of the constraints.
pub fn inclusion_of(by_generators: &GenSys, list: &ConSys) -> Inclusion
    requires { list.now.dims ≡ by_generators.now.dims }
    ensures { IsInclusion (constraints list.now) (generators by_generators.now) result }
{
    let (rows, kinds) = (by_generators.rows(), by_generators.kinds());
    for (place, generator) in rows.iter().enumerate() {
        let line = kinds[place].goes_both_ways();
        match reply(generator, line, list.rows(), list.kinds()) {
            MembershipAnswer::Yes => {}
            MembershipAnswer::No(_) => return Inclusion::No(place),
            MembershipAnswer::Wide(row) => return Inclusion::Wide(place, row),
        }
    }
    Inclusion::Yes
}
