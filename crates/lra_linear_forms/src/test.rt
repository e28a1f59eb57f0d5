ghost use Rattle.std.specs.Option.{SomeIff};
ghost use Rattle.std.specs.Prelude.{◌≡◌, ◌↔◌, ℤ, List, IfOk, IfSome};
ghost use Rattle.lra_linear_forms.specs.Form.{FormFits, HoldsAt, opposite_form};

use crate::form::LinExpr;
use lra_row::ConKind;
use std::alloc::{AllocError, Global};

/// The test `expr >= 0` or `expr = 0`.
pub struct Test {
    pub expr: LinExpr,
    pub kind: ConKind,
}

impl Drop for Test {
    fn drop(self) {
        let Test { expr: _, kind: _ } = self;
    }
}

impl Test {
    #[tactic(auto, using(crate::proofs::FormLemmas::opposite_holds))]
    /// The test that passes exactly if this one fails: `-expr - 1 >= 0` of `expr >= 0`. `None` exactly if a
    /// number of it passes i64, or when this test is an equality, whose failing no one test reports.
    pub fn opposite(&self, alloc: Global) -> Result<Option<Test>, AllocError>
        ensures some { IfOk result (λ o. SomeIff o ((self.now.kind ≡ ConKind.Ge) ×
            FormFits (opposite_form self.now.expr)) (record
            { expr = opposite_form self.now.expr; kind = ConKind.Ge })) }
        ensures opposes { IfOk result (λ o. IfSome o (λ t. (s : List ℤ) →
            (HoldsAt t.kind t.expr s ↔ (¬ HoldsAt self.now.kind self.now.expr s)))) }
    {
        if self.kind == ConKind::Eq {
            return Ok(None);
        }
        let Some(expr) = self.expr.opposite(alloc)? else {
            return Ok(None);
        };
        Ok(Some(Test {
            expr,
            kind: ConKind::Ge,
        }))
    }
}
