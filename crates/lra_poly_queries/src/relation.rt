//! How a constraint stands to a polyhedron.

ghost use Rattle.std.specs.Prelude.{◌≡◌, ◌↔◌, ◌⊎◌, ◌∷◌, ◌<◌, ◌<ℤ◌, [], suc, pos, length, IsTrue, IfErr, IfOk, Err};
ghost use Rattle.std.specs.{List.All, Prelude.false, Prelude.true};
ghost use Rattle.lra_poly_queries.specs.Crates.lra_duality.Maxima.{StaysInRange};
ghost use Rattle.lra_poly_queries.specs.Crates.lra_linear_spec.CheckedArithmetic.{checked_product};
ghost use Rattle.lra_poly_queries.specs.Crates.lra_linear_spec.Descriptions.{LinearRow, inequality};
ghost use Rattle.lra_poly_queries.specs.Crates.lra_linear_spec.OperationStrain.{ProductsPass};
ghost use Rattle.lra_poly_queries.specs.Crates.{lra_linear_spec.Kinds.is_equality, lra_linear_spec.Vectors.entry};
ghost use Rattle.lra_systems.specs.LinearSystems.{generators};
ghost use Rattle.lra_poly_queries.specs.Relations.{AreMissed, IsRelation, MissesAt};

use lra_poly::{Poly, accepts};
use lra_systems::{ConKind, Excess, GenSys, Row, opposite};

/// How a constraint stands to a polyhedron. Without a point all four are true.
#[derive(Clone, Copy, Debug, PartialEq, Eq)]
pub struct Relation {
    /// The constraint holds at each point.
    pub holds_on_all: bool,
    /// The constraint holds at no point.
    pub holds_nowhere: bool,
    /// The constraint's form is 0 at each point.
    pub saturated_on_all: bool,
    /// The constraint's form is 0 at no point.
    pub saturated_nowhere: bool,
}

impl Relation {
    /// Whether it holds at some points, and fails at others.
    pub fn cuts(self) -> bool
        ensures { IsTrue result ↔ (¬ IsTrue self.holds_on_all) × (¬ IsTrue self.holds_nowhere) }
    {
        !self.holds_on_all && !self.holds_nowhere
    }
}

/// Which signs a form doesn't have: at points, and as far as one goes along rays and lines.
#[derive(Clone, Copy)]
pub struct Missed {
    pub below: bool,
    pub zero: bool,
    pub above: bool,
}

impl Missed {
    // What both miss.
    fn and(self, other: Missed) -> Missed
        ensures below { IsTrue result.below ↔ IsTrue self.below × IsTrue other.below }
        ensures zero { IsTrue result.zero ↔ IsTrue self.zero × IsTrue other.zero }
        ensures above { IsTrue result.above ↔ IsTrue self.above × IsTrue other.above }
    {
        Missed {
            below: self.below && other.below,
            zero: self.zero && other.zero,
            above: self.above && other.above,
        }
    }
}

// Whether it isn't a point at which the form has the value 0.
fn misses_zero(generator: &Row, value: i128) -> bool
    requires { 0 < length generator.now }
    ensures { IsTrue result ↔ (¬ ((pos 0 <ℤ entry generator.now 0) × (value ≡ pos 0))) }
{
    generator.get(0) <= 0 || value != 0
}

// Which signs the form misses with a generator.
fn missed_with(form: &Row, generator: &Row, line: bool) -> Result<Missed, Excess>
    requires width { length form.now ≡ length generator.now }
    requires some { 0 < length generator.now }
    ensures misses { IfOk result (λ m. (g : LinearRow) → g.row ≡ generator.now → g.equal ≡ line →
        MissesAt form.now g m) }
    ensures product { IfOk result (λ _. StaysInRange form.now (record { row = generator.now; equal = line })) }
    ensures wide { IfErr result (λ e. checked_product form.now generator.now ≡ Err e) }
{
    let value = form.dot(generator)?;
    Ok(Missed {
        below: accepts(ConKind::Ge, line, value),
        zero: misses_zero(generator, value),
        above: accepts(ConKind::Ge, line, opposite(value)),
    })
}

// Which signs it misses with each of them.
fn missed_by(form: &Row, list: &GenSys) -> Result<Missed, Excess>
    requires { length form.now ≡ suc list.now.dims }
    ensures missed { IfOk result (AreMissed form.now (generators list.now)) }
    ensures fits { IfOk result (λ _. All (StaysInRange form.now) (generators list.now)) }
    ensures wide { IfErr result (ProductsPass (inequality form.now ∷ []) (generators list.now)) }
{
    let (rows, kinds) = (list.rows(), list.kinds());
    let mut missed = Missed {
        below: true,
        zero: true,
        above: true,
    };
    for (place, generator) in rows.iter().enumerate() {
        let here = missed_with(form, generator, kinds[place].goes_both_ways())?;
        missed = missed.and(here);
    }
    Ok(missed)
}

// What is reported about a constraint of the kind.
fn relation_of(missed: Missed, kind: ConKind) -> Relation
    ensures flat { IsTrue result.saturated_on_all ↔ (IsTrue missed.below × IsTrue missed.above) }
    ensures unmet { IsTrue result.saturated_nowhere ↔
        (IsTrue missed.zero × (IsTrue missed.below ⊎ IsTrue missed.above)) }
    ensures inequality { is_equality kind ≡ false → (result.holds_on_all ≡ missed.below) ×
        (IsTrue result.holds_nowhere ↔ (IsTrue missed.zero × IsTrue missed.above)) }
    ensures equality { is_equality kind ≡ true → (result.holds_on_all ≡ result.saturated_on_all) ×
        (result.holds_nowhere ≡ result.saturated_nowhere) }
{
    let flat = missed.below && missed.above;
    let unmet = missed.zero && (missed.below || missed.above);
    let (holds_on_all, holds_nowhere) = match kind {
        ConKind::Ge => (missed.below, missed.zero && missed.above),
        ConKind::Eq => (flat, unmet),
    };
    Relation {
        holds_on_all,
        holds_nowhere,
        saturated_on_all: flat,
        saturated_nowhere: unmet,
    }
}

/// How the constraint stands to the polyhedron; or a product of its form with a generator that passes the range.
pub fn relate(p: &Poly, form: &Row, kind: ConKind) -> Result<Relation, Excess>
    requires { length form.now ≡ suc p.now.dims }
    ensures relation { IfOk result (IsRelation p.now (record { row = form.now; equal = is_equality kind })) }
    ensures fits { IfOk result (λ _. All (StaysInRange form.now) p.now.generators) }
    ensures wide { IfErr result (ProductsPass (inequality form.now ∷ []) p.now.generators) }
{
    let missed = missed_by(form, p.generators())?;
    Ok(relation_of(missed, kind))
}
