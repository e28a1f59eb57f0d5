//! The labels of a source with the names that live there. Lists of names share their prefixes, so that all of them
//! together take no more room than the source has variables and labels.

ghost use Rattle.std.specs.Prelude.{◌≡◌, ◌++◌, ◌∷◌, ◌<◌, ◌≤◌, ◌-◌, [], List, length, take, suc, IfOk, OnErr};
ghost use Rattle.std.specs.Prelude.{MatchOption};
ghost use Rattle.lra_syntax.specs.Labels.{Labelled, label_at, label_place};
ghost use Rattle.lra_resolution_spec.specs.LabelTable.{list_at, lists_of, AreOrdered, label_in, with_live};
ghost use Rattle.lra_resolution_spec.specs.LiveNames.{live_at, live_in_call_at};

use lra_program::Place;
use lra_syntax::{Identifier, Word};
use std::alloc::{AllocError, Global};
use std::marker::Model;

/// A variable: its name comes after those of a list before.
struct SymbolEntry {
    name: Word,
    outer: usize,
}

impl Drop for SymbolEntry {
    fn drop(self) {
        let SymbolEntry { name: _, outer: _ } = self;
    }
}

/// A statement, a declarator or a block's end.
pub struct Label {
    pub place: Place,
    /// The called name, if it holds a call.
    pub called: Option<Identifier>,
    /// The number of the list of the names that live there.
    pub live: usize,
    /// The number of the list of the names that live while the call of this label runs.
    pub live_in_call: usize,
}

impl Drop for Label {
    fn drop(self) {
        let Label {
            place: _,
            called: _,
            live: _,
            live_in_call: _,
        } = self;
    }
}

/// Lists of names by their numbers, and labels. The list 0 has no name.
pub struct Labels {
    entries: Vec<SymbolEntry>,
    labels: Vec<Label>,
}

impl Drop for Labels {
    fn drop(self) {
        let Labels {
            entries: _,
            labels: _,
        } = self;
    }
}

impl Model for Labels {
    ghost use Rattle.std.specs.Prelude.{length, map, ◌+◌};
    ghost use Rattle.lra_resolution_spec.specs.LabelTable.{LabelLists, lists_of, AreOrdered, label_in, HaveLists};

    ghost Value = { LabelLists };

    ghost view = { λ s. record {
      lists = lists_of s.entries.items;
      labels = map (label_in (lists_of s.entries.items)) s.labels.items;
    } };

    ghost invariant = { λ s. AreOrdered s.entries.items × HaveLists (length s.entries.items + 1) s.labels.items };
}

/// Adds the names of a list.
fn push_names(
    alloc: Global,
    entries: &[SymbolEntry],
    number: usize,
    names: &mut Vec<Word>,
) -> Result<(), AllocError>
    requires ordered { AreOrdered entries.now }
    requires there { number ≤ length entries.now }
    ensures { IfOk result (λ _. names.new.items ≡ names.old.items ++ list_at (lists_of entries.now) number) }
{
    match number.checked_sub(1) {
        None => Ok(()),
        Some(index) => {
            let entry = &entries[index];
            push_names(alloc, entries, entry.outer, names)?;
            let name = entry.name.copy(alloc)?;
            names.push(name)?;
            Ok(())
        }
    }
}

impl Labels {
    /// No label yet, and the list 0.
    pub fn new(alloc: Global) -> Labels
        ensures lists { result.lists ≡ [] ∷ [] }
        ensures labels { result.labels ≡ [] }
    {
        Labels {
            entries: Vec::new(alloc),
            labels: Vec::new(alloc),
        }
    }

    /// A list with the name of a newer variable after those of this list, and its number.
    pub fn declare(&mut self, alloc: Global, outer: usize, name: &Word) -> Result<usize, AllocError>
        requires { outer < length self.old.lists }
        ensures lists { IfOk result (λ _. self.new.lists ≡
            self.old.lists ++ (list_at self.old.lists outer ++ name.now ∷ []) ∷ []) }
        ensures labels { IfOk result (λ _. self.new.labels ≡ self.old.labels) }
        ensures number { IfOk result (λ number. number ≡ length self.old.lists) }
        ensures kept { OnErr result (self.new ≡ self.old) }
    {
        let name = name.copy(alloc)?;
        self.entries.push(SymbolEntry { name, outer })?;
        Ok(self.entries.len())
    }

    /// How many labels there are.
    pub fn len(&self) -> usize
        ensures { result ≡ length self.now.labels }
    {
        self.labels.len()
    }

    /// Adds a label with the lists of these numbers.
    pub fn add(
        &mut self,
        place: Place,
        called: Option<Identifier>,
        live: usize,
        live_in_call: usize,
    ) -> Result<(), AllocError>
        requires live { live < length self.old.lists }
        requires live_in_call { live_in_call < length self.old.lists }
        ensures lists { IfOk result (λ _. self.new.lists ≡ self.old.lists) }
        ensures labels { IfOk result (λ _. self.new.labels ≡
            self.old.labels ++ record {
              place = place;
              called = called;
              live = list_at self.old.lists live;
              live_in_call = list_at self.old.lists live_in_call;
            } ∷ []) }
        ensures kept { OnErr result (self.new ≡ self.old) }
    {
        self.labels.push(Label {
            place,
            called,
            live,
            live_in_call,
        })?;
        Ok(())
    }

    /// The list of all names of a list but the newest; if it has none, that list.
    pub fn outer(&self, number: usize) -> usize
        requires { number < length self.now.lists }
        ensures there { result < length self.now.lists }
        ensures shorter { list_at self.now.lists result ≡
            take (length (list_at self.now.lists number) - 1) (list_at self.now.lists number) }
    {
        match number.checked_sub(1) {
            None => 0,
            Some(index) => self.entries[index].outer,
        }
    }

    /// Gives the label of a number another list: these names live there, and while its call runs.
    pub fn relist(&mut self, label: usize, live: usize)
        requires { live < length self.old.lists }
        ensures lists { self.new.lists ≡ self.old.lists }
        ensures count { length self.new.labels ≡ length self.old.labels }
        ensures labels { (front rest : List Labelled) (l : Labelled) → self.old.labels ≡ front ++ l ∷ rest →
            label ≡ suc (length front) →
            self.new.labels ≡ front ++ with_live l (list_at self.old.lists live) ∷ rest }
    {
        if let Some(index) = label.checked_sub(1) {
            if index < self.labels.len() {
                self.labels[index].live = live;
                self.labels[index].live_in_call = live;
            }
        }
    }

    /// The label of a number, from 1.
    pub fn get(&self, label: usize) -> Option<&Label>
        ensures { MatchOption result (label_at self.now.labels label ≡ None)
            (λ l. (label_at self.now.labels label ≡ Some (label_in self.now.lists l.now)) ×
            (l.now.live < length self.now.lists) × (l.now.live_in_call < length self.now.lists)) }
    {
        match label.checked_sub(1) {
            None => None,
            Some(index) => self.labels.get(index),
        }
    }

    /// Where the label stands.
    pub fn place(&self, label: usize) -> Place
        ensures { result ≡ label_place (label_at self.now.labels label) }
    {
        match self.get(label) {
            None => Place { line: 1, column: 1 },
            Some(found) => found.place,
        }
    }

    /// The names of a list, oldest first.
    fn names(&self, alloc: Global, number: usize) -> Result<Vec<Word>, AllocError>
        requires { number < length self.now.lists }
        ensures { IfOk result (λ names. names.items ≡ list_at self.now.lists number) }
    {
        let mut names = Vec::new(alloc);
        push_names(alloc, &self.entries, number, &mut names)?;
        Ok(names)
    }

    /// The names that live at the label, oldest first.
    pub fn live(&self, alloc: Global, label: usize) -> Result<Vec<Word>, AllocError>
        ensures { IfOk result (λ names. names.items ≡ live_at (label_at self.now.labels label)) }
    {
        match self.get(label) {
            None => Ok(Vec::new(alloc)),
            Some(found) => self.names(alloc, found.live),
        }
    }

    /// The names that live while the label's call runs, oldest first.
    pub fn live_in_call(&self, alloc: Global, label: usize) -> Result<Vec<Word>, AllocError>
        ensures { IfOk result (λ names. names.items ≡ live_in_call_at (label_at self.now.labels label)) }
    {
        match self.get(label) {
            None => Ok(Vec::new(alloc)),
            Some(found) => self.names(alloc, found.live_in_call),
        }
    }
}
