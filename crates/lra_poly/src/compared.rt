//! Equality and hash of polyhedra: by their canonical lists, which the points determine.

ghost use Rattle.std.specs.Cmp.{partial_equiv_from_equiv};
ghost use Rattle.std.specs.Hash as fed;
ghost use Rattle.lra_poly.specs.Equality.{polyhedron_Decides, polyhedron_eq, polyhedron_eq_equiv, polyhedron_hash};

use crate::poly::Poly;
use std::hash::{Hash, Hasher};

impl PartialEq for Poly {
    ghost eq = { polyhedron_eq };

    ghost laws = { partial_equiv_from_equiv polyhedron_eq_equiv };

    fn eq(&self, other: &Poly) -> bool {
        self.same(other)
    }
}

impl Eq for Poly {
    ghost laws = { polyhedron_eq_equiv };
}

impl Hash for Poly {
    ghost hash_input = { polyhedron_hash };

    ghost respects_eq = { (fed.same_Alike polyhedron_hash polyhedron_Decides).fed };

    #[tactic(auto, using(crate::proofs::SameLemmas::rows_of_constraints))]
    fn hash<H: Hasher>(&self, state: &mut H) {
        let list = self.rows();
        let _kinds = list.kinds(); // fact: as many kinds as rows
        self.dims().hash(state);
        list.rows().hash(state);
    }
}
