//! Laws: each of these does nothing, and its contract is the theorem.

ghost use Rattle.std.specs.{List.Contains, Prelude.◌≡◌, Prelude.◌↔◌, Prelude.ℕ, Prelude.ℤ, Prelude.List};
ghost use Rattle.lra_domain.specs.Actions.{Action, ActionFits};
ghost use Rattle.lra_linear_spec.specs.RowOrder.{Ascends, inequality_cmp};
ghost use Rattle.lra_dbm.specs.Tight.{Entries};
ghost use Rattle.lra_octagon.specs.ExactRows.{IsOctagonEquality, IsOctagonInequality};
ghost use Rattle.lra_octagon.specs.Parts.{octagon_equalities, octagon_inequalities};
ghost use Rattle.lra_octagon.specs.{Abstraction.octagon_abstraction, Content.OctagonContent, Least.IsTightOctagon};

/// What is defined of tight octagons is tight: so an octagon that exact calls made of top and bottom values is, and
/// `is_empty`, `included` and `join` say of it what they say of tight ones.
pub fn exact_octagons_are_tight()
    ensures universal { (n cap : ℕ) (a : OctagonContent) → octagon_abstraction.top n cap a → IsTightOctagon a }
    ensures void { (n cap : ℕ) (a : OctagonContent) → octagon_abstraction.bottom n cap a →
        IsTightOctagon a }
    ensures done { (step : Action) (a b : OctagonContent) → octagon_abstraction.well_formed a → ActionFits step a.dims →
        IsTightOctagon a → octagon_abstraction.transferred step a b → IsTightOctagon b }
    ensures joined { (a b c : OctagonContent) → octagon_abstraction.well_formed a → octagon_abstraction.well_formed b →
        a.dims ≡ b.dims →
        IsTightOctagon a → IsTightOctagon b → octagon_abstraction.joined a b c → IsTightOctagon c }
    ensures valued { (h a : OctagonContent) → octagon_abstraction.valued h a → IsTightOctagon a }
{}

/// The rows of an octagon are in order, and are exactly its bounds: the unary ones, and those of sums and differences
/// that two unary ones don't imply; two that make an equality are one row.
pub fn octagon_rows_are_bounds()
    ensures equalities_ascend { (n : ℕ) (m : Entries) → Ascends inequality_cmp (octagon_equalities n m 0 n) }
    ensures inequalities_ascend { (n : ℕ) (m : Entries) → Ascends inequality_cmp (octagon_inequalities n m 0 n) }
    ensures equalities { (n : ℕ) (m : Entries) (r : List ℤ) →
        (Contains (octagon_equalities n m 0 n) r ↔ IsOctagonEquality n m r) }
    ensures inequalities { (n : ℕ) (m : Entries) (r : List ℤ) →
        (Contains (octagon_inequalities n m 0 n) r ↔ IsOctagonInequality n m r) }
{}
