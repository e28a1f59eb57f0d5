//! The labels of a source while it is resolved, and the names that live now.

ghost use Rattle.std.specs.Prelude.{◌≡◌, ◌∷◌, ◌++◌, ◌-◌, [], List, length, take, suc, IfOk, OnOk, IfErr};
ghost use Rattle.lra_syntax.specs.Labels.{Labelled, label_with};
ghost use Rattle.lra_resolve_simple.specs.Crates.lra_resolution_spec.LabelTable.{with_live};
ghost use Rattle.lra_resolve_simple.specs.Labelling.{Adds};

use lra_base::{Place, SourceError};
use lra_scopes::Labels;
use lra_syntax::{Identifier, Word};
use std::alloc::Global;
use std::marker::Model;

/// The labels so far, and the scalars of the function that live now.
pub struct Labelling {
    table: Labels,
    /// The number of the list of the names that live now.
    live: usize,
    /// How many they are.
    count: usize,
}

impl Drop for Labelling {
    fn drop(self) {
        let Labelling {
            table: _,
            live: _,
            count: _,
        } = self;
    }
}

impl Model for Labelling {
    ghost use Rattle.std.specs.Prelude.{◌≡◌, ◌<◌, suc, length};
    ghost use Rattle.lra_resolve_simple.specs.Crates.lra_resolution_spec.LabelTable.{list_at};
    ghost use Rattle.lra_resolve_simple.specs.Labelling.{LabelsSoFar};

    ghost Value = { LabelsSoFar };

    ghost view = { λ s. record {
      live = list_at s.table.lists s.live;
      labels = s.table.labels;
      next = suc (length s.table.labels);
    } };

    ghost invariant = { λ s. (s.live < length s.table.lists) × (s.count ≡ length (list_at s.table.lists s.live)) };
}

impl Labelling {
    /// No label yet, and no name.
    pub fn new(alloc: Global) -> Labelling
        ensures { result ≡ record { live = []; labels = []; next = 1 } }
    {
        Labelling {
            table: Labels::new(alloc),
            live: 0,
            count: 0,
        }
    }

    /// The next label, for a statement or an end of a block. Gives [`SourceError::Memory`] only.
    pub fn add(&mut self, place: Place, called: Option<Identifier>) -> Result<usize, SourceError>
        ensures label { IfOk result (λ n. n ≡ self.old.next) }
        ensures number { IfOk result (λ n. n ≡ suc (length self.old.labels)) }
        ensures adds { OnOk result (Adds self.old self.new (label_with place called self.old.live ∷ [])) }
        ensures counted { OnOk result (self.new.next ≡ suc self.old.next) }
        ensures memory { IfErr result (λ e. e ≡ SourceError.Memory) }
    {
        self.table.add(place, called, self.live, self.live)?;
        Ok(self.table.len())
    }

    /// Declares a scalar without a label: a parameter. Gives [`SourceError::Memory`] only.
    pub fn declare(&mut self, alloc: Global, name: &Word) -> Result<(), SourceError>
        ensures live { OnOk result (self.new.live ≡ self.old.live ++ name.now ∷ []) }
        ensures labels { OnOk result (self.new.labels ≡ self.old.labels) }
        ensures counted { OnOk result (self.new.next ≡ self.old.next) }
        ensures memory { IfErr result (λ e. e ≡ SourceError.Memory) }
    {
        match self.count.checked_add(1) {
            None => Err(SourceError::Memory),
            Some(count) => {
                let live = self.table.declare(alloc, self.live, name)?;
                self.live = live;
                self.count = count;
                Ok(())
            }
        }
    }

    /// The next label, for a declarator: its scalar lives after it, and so in its call. Gives
    /// [`SourceError::Memory`] only.
    pub fn add_declarator(
        &mut self,
        alloc: Global,
        name: &Identifier,
        called: Option<Identifier>,
    ) -> Result<usize, SourceError>
        ensures label { IfOk result (λ n. n ≡ self.old.next) }
        ensures labels { OnOk result (self.new.labels ≡ self.old.labels ++ record {
          place = name.now.place;
          called = called;
          live = self.old.live;
          live_in_call = self.old.live ++ name.now.word ∷ [];
        } ∷ []) }
        ensures live { OnOk result (self.new.live ≡ self.old.live ++ name.now.word ∷ []) }
        ensures counted { OnOk result (self.new.next ≡ suc self.old.next) }
        ensures memory { IfErr result (λ e. e ≡ SourceError.Memory) }
    {
        match self.count.checked_add(1) {
            None => Err(SourceError::Memory),
            Some(count) => {
                let live = self.table.declare(alloc, self.live, &name.word)?;
                self.table.add(name.place, called, self.live, live)?;
                self.live = live;
                self.count = count;
                Ok(self.table.len())
            }
        }
    }

    /// The names that live now live at an earlier label too: at that of a `for` those that it declares.
    pub fn relist(&mut self, label: usize)
        ensures labels { (front rest : List Labelled) (l : Labelled) → self.old.labels ≡ front ++ l ∷ rest →
            label ≡ suc (length front) → self.new.labels ≡ front ++ with_live l self.old.live ∷ rest }
        ensures live { self.new.live ≡ self.old.live }
        ensures counted { self.new.next ≡ self.old.next }
    {
        self.table.relist(label, self.live);
    }

    /// How many names live now.
    pub fn live_count(&self) -> usize
        ensures { result ≡ length self.now.live }
    {
        self.count
    }

    /// The newest scalar lives no longer.
    fn forget(&mut self)
        ensures live { self.new.live ≡ take (length self.old.live - 1) self.old.live }
        ensures labels { self.new.labels ≡ self.old.labels }
        ensures counted { self.new.next ≡ self.old.next }
    {
        self.live = self.table.outer(self.live);
        self.count = self.count.saturating_sub(1);
    }

    /// Only the oldest `count` scalars live on.
    pub fn keep_oldest(&mut self, count: usize)
        ensures live { self.new.live ≡ take count self.old.live }
        ensures labels { self.new.labels ≡ self.old.labels }
        ensures counted { self.new.next ≡ self.old.next }
    {
        'names: while count < self.live_count() {
            self.forget();
        }
    }

    /// The table of all labels.
    pub fn into_table(self) -> Labels
        ensures { result.labels ≡ self.labels }
    {
        let Labelling {
            table,
            live: _,
            count: _,
        } = self;
        table
    }
}
