//! Equality, order and hash of rows: those of their numbers.

ghost use Rattle.std.specs.{Cmp.int_eq_equiv, Cmp.partial_equiv_from_equiv, Cmp.po, Cmp.Lexicographic.lists_equiv};
ghost use Rattle.std.specs.{Cmp.Lexicographic.pointwise, Cmp.Rules.signed_items, Prelude.refl};
ghost use Rattle.std.specs.Hash as fed;
ghost use Rattle.std.specs.Ordering.{as_partial_cmp, int_eq};
ghost use Rattle.lra_linear_spec.specs.RowOrder.{row_cmp};
ghost use Rattle.lra_linear_spec.proofs.RowOrder.{row_cmp_total};
ghost use Rattle.lra_row.specs.RowTies.{row_eq_by_cmp};

use crate::row::Row;
use std::cmp::Ordering;
use std::hash::{Hash, Hasher};

impl PartialEq for Row {
    ghost eq = { pointwise int_eq };

    ghost laws = { partial_equiv_from_equiv (lists_equiv int_eq_equiv) };

    fn eq(&self, other: &Row) -> bool {
        self.entries() == other.entries()
    }
}

impl Eq for Row {
    ghost laws = { lists_equiv int_eq_equiv };
}

impl PartialOrd for Row {
    ghost partial_cmp = { as_partial_cmp row_cmp };

    ghost laws = { po row_cmp_total row_eq_by_cmp };

    fn partial_cmp(&self, other: &Row) -> Option<Ordering> {
        Some(self.cmp(other))
    }
}

impl Ord for Row {
    ghost cmp = { row_cmp };

    ghost total = { row_cmp_total };

    ghost matches_partial_cmp = { λ x y. refl };

    ghost matches_eq = { row_eq_by_cmp };

    fn cmp(&self, other: &Row) -> Ordering {
        self.compare(other)
    }
}

impl Hash for Row {
    ghost hash_input = { fed.slice fed.i128 };

    ghost respects_eq = { (fed.same_Alike (fed.slice fed.i128) signed_items).fed };

    fn hash<H: Hasher>(&self, state: &mut H) {
        self.entries().hash(state);
    }
}
