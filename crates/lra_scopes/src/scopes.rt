//! Scopes: the scalars and arrays that can be named, oldest first.

ghost use Rattle.std.specs.Prelude.{◌≡◌, ◌∷◌, ◌++◌, [], length, option_map, IfOk};
ghost use Rattle.lra_resolution_spec.specs.Scope.{found_of, is_declared, with_local, inner};
ghost use Rattle.lra_scopes.specs.{Bindings.binding_view, Bindings.lookup_view, Scopes.left_to};

use crate::bindings::{Binding, Lookup};
use crate::variables::Variables;
use lra_program::Slot;
use lra_syntax::Word;
use std::alloc::{AllocError, Global};
use std::marker::Model;

/// The scalars and arrays that can be named, oldest first.
pub struct Scope {
    globals: Variables,
    locals: Variables,
    /// How many of the locals the scopes around this one declare.
    outer: usize,
}

impl Drop for Scope {
    fn drop(self) {
        let Scope {
            globals: _,
            locals: _,
            outer: _,
        } = self;
    }
}

impl Model for Scope {
    ghost use Rattle.lra_resolution_spec.specs.Scope.{Scope};

    ghost Value = { Scope };

    ghost view = { λ s. record { globals = s.globals; locals = s.locals; outer = s.outer } };
}

impl Scope {
    /// What the name means.
    pub fn find(&self, name: &Word) -> Option<Lookup>
        ensures { option_map lookup_view result ≡ found_of self.now name.now }
    {
        match self.locals.find(name) {
            Some(placed) => Some(Lookup {
                slot: Slot::Local(placed.scalars),
                meaning: placed.meaning,
            }),
            None => match self.globals.find(name) {
                Some(placed) => Some(Lookup {
                    slot: Slot::Global(placed.scalars),
                    meaning: placed.meaning,
                }),
                None => None,
            },
        }
    }

    /// Declares a further scalar or array.
    pub fn declare(
        &mut self,
        alloc: Global,
        name: &Word,
        meaning: Binding,
    ) -> Result<(), AllocError>
        ensures { IfOk result (λ _. self.new ≡
            with_local self.old (record { name = name.now; binding = binding_view meaning })) }
    {
        self.locals.push(alloc, name, meaning)
    }

    /// Whether this scope has declared the name.
    pub fn is_declared(&self, name: &Word) -> bool
        ensures { result ≡ is_declared self.now name.now }
    {
        self.locals.has_behind(self.outer, name)
    }

    /// How many locals there are.
    pub fn count(&self) -> usize
        ensures { result ≡ length self.now.locals }
    {
        self.locals.len()
    }

    /// How many of the locals the scopes around this one declare.
    pub fn outer(&self) -> usize
        ensures { result ≡ self.now.outer }
    {
        self.outer
    }

    /// Begins a scope inside this one.
    pub fn enter(&mut self)
        ensures { self.new ≡ inner self.old }
    {
        self.outer = self.locals.len();
    }

    /// Ends a scope: so many locals stay, and so many of them lie outside the scope around it.
    pub fn leave(&mut self, count: usize, outer: usize)
        ensures { self.new ≡ left_to count outer self.old }
    {
        self.locals.truncate(count);
        self.outer = outer;
    }

    /// The scope of the file, with nothing declared yet.
    pub fn outermost(alloc: Global) -> Scope
        ensures { result ≡ record { globals = []; locals = []; outer = 0 } }
    {
        Scope {
            globals: Variables::new(alloc),
            locals: Variables::new(alloc),
            outer: 0,
        }
    }

    /// Declares a further global scalar or array.
    pub fn declare_global(
        &mut self,
        alloc: Global,
        name: &Word,
        meaning: Binding,
    ) -> Result<(), AllocError>
        ensures { IfOk result (λ _. self.new ≡ record {
          globals = self.old.globals
              ++ record { name = name.now; binding = binding_view meaning } ∷ [];
          locals = self.old.locals;
          outer = self.old.outer;
        }) }
    {
        self.globals.push(alloc, name, meaning)
    }

    /// Begins a function: no local is declared.
    pub fn begin_function(&mut self)
        ensures { self.new ≡ record { globals = self.old.globals; locals = []; outer = 0 } }
    {
        self.locals.truncate(0);
        self.outer = 0;
    }
}
