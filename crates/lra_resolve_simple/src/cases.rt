//! The list of a `switch`, as far as it is resolved, and the labels so far.

ghost use Rattle.std.specs.Prelude.{◌≡◌, ◌++◌, ◌∷◌, [], ◌||◌, false, not, IfOk, OnOk};
ghost use Rattle.lra_base.specs.declared.refusals.Cause.TheVariants.{DuplicateCase};
ghost use Rattle.lra_base.specs.{CaseLabels.is_same_case, declared.case_labels.CaseLabel.CaseLabel};
ghost use Rattle.lra_program.specs.declared.program.CaseItem as program_case;
ghost use Rattle.lra_resolve_simple.specs.Crates.lra_resolution_spec.NameFaults.{fault_if};
ghost use Rattle.lra_scopes.specs.Outcome.{StopsAtFirstFault};
ghost use Rattle.lra_resolve_simple.specs.Cases.{has_seen};

use lra_base::{CaseLabel, Cause, SourceError};
use lra_scopes::refuse;
use lra_syntax::PlacedLabel;
use std::alloc::{AllocError, Global};
use std::collections::BTreeSet;

/// What the labels and statements of one `switch` mean so far, and which labels these are, their values in order.
pub struct CaseList {
    values: BTreeSet<i64>,
    has_default: bool,
    items: Vec<lra_program::CaseItem>,
}

impl Drop for CaseList {
    fn drop(self) {
        let CaseList {
            values: _,
            has_default: _,
            items: _,
        } = self;
    }
}

impl CaseList {
    /// None.
    pub fn new(alloc: Global) -> CaseList
        ensures unseen { (l : CaseLabel) → has_seen result l ≡ false }
        ensures items { result.items.items ≡ [] }
    {
        CaseList {
            values: BTreeSet::new(alloc),
            has_default: false,
            items: Vec::new(alloc),
        }
    }

    /// Whether none of the labels so far is like this one, which is one of them from now on.
    fn see(&mut self, label: CaseLabel) -> Result<bool, AllocError>
        ensures told { IfOk result (λ new. new ≡ not (has_seen self.old label)) }
        ensures seen { OnOk result ((l : CaseLabel) → has_seen self.new l
            ≡ (is_same_case l label || has_seen self.old l)) }
        ensures items { OnOk result (self.new.items.items ≡ self.old.items.items) }
    {
        match label {
            CaseLabel::Case(value) => Ok(self.values.insert(value)?),
            CaseLabel::Default => {
                let new = !self.has_default;
                self.has_default = true;
                Ok(new)
            }
        }
    }

    /// Another label.
    ///
    /// `DuplicateCase` if one like it is there, `Memory` if memory runs out.
    pub fn add_label(&mut self, label: &PlacedLabel) -> Result<(), SourceError>
        ensures told { StopsAtFirstFault (fault_if (has_seen self.old label.now.label) DuplicateCase label.now.place)
            result }
        ensures seen { OnOk result ((l : CaseLabel) → has_seen self.new l
            ≡ (is_same_case l label.now.label || has_seen self.old l)) }
        ensures items { OnOk result (self.new.items.items ≡ self.old.items.items
            ++ program_case.Label label.now.label ∷ []) }
    {
        if !self.see(label.label)? {
            return refuse(Cause::DuplicateCase, label.place);
        }
        self.items.push(lra_program::CaseItem::Label(label.label))?;
        Ok(())
    }

    /// Another statement.
    pub fn add_statement(&mut self, stmt: lra_program::Stmt) -> Result<(), AllocError>
        ensures seen { OnOk result ((l : CaseLabel) → has_seen self.new l ≡ has_seen self.old l) }
        ensures items { OnOk result (self.new.items.items ≡ self.old.items.items ++ program_case.Stated stmt ∷ []) }
    {
        self.items.push(lra_program::CaseItem::Stated(stmt))?;
        Ok(())
    }

    /// What all of them mean.
    pub fn into_items(self) -> Vec<lra_program::CaseItem>
        ensures { result ≡ self.items }
    {
        let CaseList {
            values: _,
            has_default: _,
            items,
        } = self;
        items
    }
}
