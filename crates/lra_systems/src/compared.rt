//! Equality, order and hash of lists: by the dimensions, then row by row, then kind by kind.

ghost use Rattle.std.specs.{Cmp.po, Cmp.unsigned_Decides, Cmp.Rules.signed_items, Prelude.◌++◌, Prelude.refl};
ghost use Rattle.std.specs.Hash as fed;
ghost use Rattle.std.specs.Ordering.{as_partial_cmp};
ghost use Rattle.lra_systems.specs.Comparisons.{list_cmp, list_cmp_total, list_eq, list_eq_by_cmp, list_eq_equiv};
ghost use Rattle.lra_systems.specs.Comparisons.{list_eq_per};

use crate::system::System;
use std::cmp::Ordering;
use std::hash::{Hash, Hasher};

impl<K: Copy + PartialEq> PartialEq for System<K> {
    ghost eq = { list_eq K.eq };

    ghost laws = { list_eq_per K.laws };

    fn eq(&self, other: &System<K>) -> bool {
        self.dims() == other.dims() && self.rows() == other.rows() && self.kinds() == other.kinds()
    }
}

impl<K: Copy + Eq> Eq for System<K> {
    ghost laws = { list_eq_equiv K.Eq.laws };
}

impl<K: Copy + Ord> PartialOrd for System<K> {
    ghost partial_cmp = { as_partial_cmp (list_cmp K.cmp) };

    ghost laws = { po (list_cmp_total K.total) (list_eq_by_cmp K.cmp K.matches_eq) };

    fn partial_cmp(&self, other: &System<K>) -> Option<Ordering> {
        Some(self.cmp(other))
    }
}

impl<K: Copy + Ord> Ord for System<K> {
    ghost cmp = { list_cmp K.cmp };

    ghost total = { list_cmp_total K.total };

    ghost matches_partial_cmp = { λ x y. refl };

    ghost matches_eq = { list_eq_by_cmp K.cmp K.matches_eq };

    fn cmp(&self, other: &System<K>) -> Ordering {
        let dims = self.dims().cmp(&other.dims());
        if dims != Ordering::Equal {
            return dims;
        }
        let rows = self.rows().cmp(&other.rows());
        if rows != Ordering::Equal {
            return rows;
        }
        self.kinds().cmp(&other.kinds())
    }
}

impl<K: Copy + Hash> Hash for System<K> {
    ghost hash_input = { λ s. fed.usize s.dims
        ++ (fed.slice (fed.slice fed.i128) s.rows ++ fed.slice K.hash_input s.kinds) };

    ghost respects_eq = { (fed.and-Alike (fed.on_Alike (λ s. s.dims) (fed.same_Alike fed.usize unsigned_Decides))
        (fed.and-Alike
        (fed.on_Alike (λ s. s.rows) (fed.items_Alike (fed.same_Alike (fed.slice fed.i128) signed_items)))
        (fed.on_Alike (λ s. s.kinds) (fed.items_Alike (record { fed = K.respects_eq }))))).fed };

    fn hash<H: Hasher>(&self, state: &mut H) {
        self.dims().hash(state);
        self.rows().hash(state);
        self.kinds().hash(state);
    }
}
