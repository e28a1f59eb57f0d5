//! One spelling of each set of points, and what a flag of a meet reports.

ghost use Rattle.std.specs.Prelude.{◌≡◌, List};
ghost use Rattle.lra_poly.specs.Crates.lra_linear_spec.Descriptions.{Con, Gen, LinearRow};
ghost use Rattle.lra_poly.specs.Crates.lra_linear_spec.OperationStrain.{with_positivity};
ghost use Rattle.lra_poly.specs.Crates.lra_linear_spec.Points.{SameSet};
ghost use Rattle.lra_poly.specs.Crates.lra_linear_spec.Polyhedra.{Polyhedron, IsPolyhedron};
ghost use Rattle.lra_poly.specs.Crates.lra_linear_spec.Strain as strain;
ghost use Rattle.lra_duality.specs.Incremental.{MayGoOn};
ghost use Rattle.lra_poly.specs.StrainsAfter.{StrainsAfter};
ghost use Rattle.lra_poly.specs.{Restricted.IsRestricted, declared.outcome.Outcome.TheVariants.Flagged};

/// Two polyhedra with the same points have the same constraints and the same generators, whatever made them; and the
/// constraints of a polyhedron have the points that its generators have.
///
/// Does nothing: its contract is the theorem.
pub fn polyhedra_have_one_spelling()
    ensures one { (p q : Polyhedron) → IsPolyhedron p → IsPolyhedron q → q.dims ≡ p.dims →
        SameSet p.dims (Con p.rows) (Con q.rows) → p ≡ q }
    ensures both { (p : Polyhedron) → IsPolyhedron p → SameSet p.dims (Con p.rows) (Gen p.generators) }
{}

/// If both lists of a polyhedron make a cone, a meet or a test is flagged only if a new row exceeds a limit after
/// the polyhedron's own and those of the new ones that were added before it, or if the list of all of these exceeds
/// a limit.
///
/// Does nothing: its contract is the theorem.
pub fn flagged_meets_go_on()
    ensures { (p q : Polyhedron) (more : List LinearRow) (loss : strain.Loss) → MayGoOn p.dims p.generators →
        IsRestricted p more q (Flagged loss) → StrainsAfter p.dims (with_positivity p.dims p.rows) more loss }
{}
