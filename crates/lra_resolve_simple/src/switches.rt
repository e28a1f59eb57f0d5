//! What stands before the braces of a `switch`.

ghost use Rattle.std.specs.Prelude.{◌≡◌, ◌∷◌, [], suc, map, IfOk, OnOk};
ghost use Rattle.lra_program.specs.ProgramViews.{stmt_view, expr_view, case_view, cases_of};
ghost use Rattle.lra_syntax.specs.{Labels.plain_label, Views.expr_view as tree_expr_view};
ghost use Rattle.lra_resolve_simple.specs.Crates.lra_resolution_spec.NameFaults.{expr_faults};
ghost use Rattle.lra_resolve_simple.specs.Crates.lra_resolution_spec.Resolve.{resolve_expr};
ghost use Rattle.lra_scopes.specs.Outcome.{StopsAtFirstFault};
ghost use Rattle.lra_resolve_simple.specs.{Labelling.Adds, Statements.switch_of};

use crate::labelling::Labelling;
use lra_base::{Place, SourceError};
use lra_scopes::{Scope, resolve_expr};
use lra_syntax::Expr;
use std::alloc::Global;

/// The label of a `switch`, and what it looks for.
pub struct SwitchHead {
    label: usize,
    value: lra_program::Expr,
}

impl Drop for SwitchHead {
    fn drop(self) {
        let SwitchHead { label: _, value: _ } = self;
    }
}

impl SwitchHead {
    /// The whole statement.
    pub fn into_switch(self, items: Vec<lra_program::CaseItem>) -> lra_program::Stmt
        ensures { stmt_view result ≡ switch_of self.label (expr_view self.value)
            (cases_of (map case_view items.items)) }
    {
        let SwitchHead { label, value } = self;
        lra_program::Stmt::Switch(label, value, items)
    }
}

/// The next label, and what the `switch` under it looks for.
#[tactic(auto, using(lra_scopes::proofs::Loops::wanting_told))]
pub fn resolve_switch_head(
    alloc: Global,
    scope: &Scope,
    labels: &mut Labelling,
    place: Place,
    value: &Expr,
) -> Result<SwitchHead, SourceError>
    ensures told { StopsAtFirstFault (expr_faults scope.now (tree_expr_view value.now)) result }
    ensures label { IfOk result (λ h. h.label ≡ labels.old.next) }
    ensures found { IfOk result (λ h. expr_view h.value ≡ resolve_expr scope.now (tree_expr_view value.now)) }
    ensures counted { OnOk result (labels.new.next ≡ suc labels.old.next) }
    ensures adds { OnOk result (Adds labels.old labels.new (plain_label place labels.old.live ∷ [])) }
{
    let label = labels.add(place, None)?;
    let value = resolve_expr(alloc, scope, value)?;
    Ok(SwitchHead { label, value })
}
