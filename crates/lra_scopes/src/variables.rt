//! Scalars and arrays in the order of their declarations, each with what its name means.

ghost use Rattle.std.specs.List.{list_any};
ghost use Rattle.std.specs.Prelude.{◌≡◌, ◌++◌, ◌∷◌, [], ℕ, length, take, drop, bytes_eq, option_map, IfOk};
ghost use Rattle.lra_program.specs.Program.{Slot};
ghost use Rattle.lra_resolution_spec.specs.Scope.{names_in, found_among, width_of_all};
ghost use Rattle.lra_scopes.specs.{Bindings.binding_view, Variables.placed_view};

use crate::bindings::Binding;
use crate::names::Names;
use lra_syntax::Word;
use std::alloc::{AllocError, Global};
use std::marker::Model;

/// What a name means, and how many scalars are declared before it.
#[derive(Clone, Copy)]
pub struct Placed {
    pub scalars: usize,
    pub meaning: Binding,
}

/// Scalars and arrays in the order of their declarations, each found by its name.
pub struct Variables {
    names: Names,
    /// One for each name.
    placed: Vec<Placed>,
}

impl Drop for Variables {
    fn drop(self) {
        let Variables {
            names: _,
            placed: _,
        } = self;
    }
}

impl Model for Variables {
    ghost use Rattle.std.specs.Prelude.{◌≡◌, length, List};
    ghost use Rattle.lra_resolution_spec.specs.Scope.{SymbolEntry};
    ghost use Rattle.lra_scopes.specs.Variables.{entries_of, AreCounted};

    ghost Value = { List SymbolEntry };

    ghost view = { λ v. entries_of v.names v.placed.items };

    ghost invariant = { λ v. (length v.placed.items ≡ length v.names)
        × AreCounted 0 v.placed.items };
}

impl Variables {
    /// None yet.
    pub fn new(alloc: Global) -> Variables
        ensures { result ≡ [] }
    {
        Variables {
            names: Names::new(alloc),
            placed: Vec::new(alloc),
        }
    }

    /// How many there are.
    pub fn len(&self) -> usize
        ensures { result ≡ length self.now }
    {
        self.names.len()
    }

    /// What the newest of this name means, and how many scalars are before it.
    pub fn find(&self, name: &Word) -> Option<Placed>
        ensures { (slot : ℕ → Slot) → option_map (placed_view slot) result
            ≡ found_among slot self.now name.now }
    {
        match self.names.newest(name) {
            Some(place) => self.placed.get(place).copied(),
            None => None,
        }
    }

    /// How many of them are scalars.
    fn count_scalars(&self) -> usize
        ensures { result ≡ width_of_all self.now }
    {
        match self.placed.last() {
            Some(last) => last.scalars + last.meaning.width(),
            None => 0,
        }
    }

    /// Whether one after the oldest `count` has the name.
    pub fn has_behind(&self, count: usize, name: &Word) -> bool
        ensures { result ≡ list_any (bytes_eq name.now) (drop count (names_in self.now)) }
    {
        self.names.has_behind(count, name)
    }

    /// One more. It hides the older ones of its name.
    pub fn push(&mut self, alloc: Global, name: &Word, meaning: Binding) -> Result<(), AllocError>
        ensures { IfOk result (λ _. self.new
            ≡ self.old ++ record { name = name.now; binding = binding_view meaning } ∷ []) }
    {
        let scalars = self.count_scalars();
        self.placed.reserve(1)?;
        self.names.push(alloc, name)?;
        self.placed.push(Placed { scalars, meaning }).unwrap();
        Ok(())
    }

    /// Forgets all but the oldest `count`.
    pub fn truncate(&mut self, count: usize)
        ensures { self.new ≡ take count self.old }
    {
        self.names.truncate(count);
        self.placed.truncate(count);
    }
}
