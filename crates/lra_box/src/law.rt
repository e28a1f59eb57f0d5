//! A law: the function does nothing, and its contract is the theorem.

ghost use Rattle.std.specs.{List.Contains, Prelude.◌↔◌, Prelude.ℕ, Prelude.ℤ, Prelude.List, Prelude.length};
ghost use Rattle.lra_box.specs.Crates.lra_linear_spec.Echelon.{IsEchelon};
ghost use Rattle.lra_box.specs.Crates.lra_linear_spec.RowOrder.{Ascends, inequality_cmp};
ghost use Rattle.lra_box.specs.ExactRows.{IsEqualityRow, IsInequalityRow};
ghost use Rattle.lra_box.specs.{Parts.box_equalities, Parts.box_inequalities, declared.interval.Interval.Interval};

/// The rows of a box are in order, and are exactly its finite bounds; two equal ones are one equality.
pub fn box_rows_are_bounds()
    ensures echelon { (is : List Interval) → (pivots : List ℕ) × IsEchelon (box_equalities (length is) 0 is) pivots }
    ensures ascend { (is : List Interval) →
        Ascends inequality_cmp (box_inequalities (length is) 0 is) }
    ensures equalities { (is : List Interval) (r : List ℤ) →
        (Contains (box_equalities (length is) 0 is) r ↔ IsEqualityRow (length is) is r) }
    ensures inequalities { (is : List Interval) (r : List ℤ) →
        (Contains (box_inequalities (length is) 0 is) r ↔ IsInequalityRow (length is) is r) }
{}
