//! Names in the order of their declarations, each found by its text.

ghost use Rattle.std.specs.Prelude.{◌≡◌, ◌≤◌, ◌-◌, ◌++◌, ◌∷◌, [], ℕ, List, length, take, drop, cond, bytes_eq, Option};
ghost use Rattle.std.specs.{List.list_any, Prelude.IsSome, Prelude.IfOk, Prelude.IfErr};
ghost use Rattle.indexmap.specs.IndexMap.{get_by_text};
ghost use Rattle.lra_resolution_spec.specs.Scope.{newest};

use indexmap::IndexMap;
use lra_syntax::Word;
use std::alloc::{AllocError, Global};
use std::marker::Model;

/// A declared name.
pub struct Declared {
    word: Word,
    /// The place of the newest declaration of this name among those before.
    hidden: Option<usize>,
}

impl Drop for Declared {
    fn drop(self) {
        let Declared { word: _, hidden: _ } = self;
    }
}

/// Names in the order of their declarations. The newest of a name is found by its hash, and not by going through them.
pub struct Names {
    declared: Vec<Declared>,
    /// The place of the newest of each name.
    places: IndexMap<String, usize>,
}

impl Drop for Names {
    fn drop(self) {
        let Names {
            declared: _,
            places: _,
        } = self;
    }
}

impl Model for Names {
    ghost use Rattle.std.specs.Prelude.{ℕ, List};
    ghost use Rattle.lra_scopes.specs.Names.{words_of, IsIndexed};

    ghost Value = { List (List ℕ) };

    ghost view = { λ n. words_of n.declared.items };

    ghost invariant = { λ n. IsIndexed n.places n.declared.items };
}

/// Ends a declaration of the name: it is again where it was before, or nowhere.
fn restore(places: &mut IndexMap<String, usize>, name: &str, hidden: Option<usize>)
    requires { IsSome (get_by_text places.old name.now) }
    ensures { (other : List ℕ) → get_by_text places.new other
        ≡ cond (bytes_eq name.now other) hidden (get_by_text places.old other) }
{
    match hidden {
        Some(place) => {
            if let Some(newest) = places.get_mut(name) {
                *newest = place;
            }
        }
        None => {
            places.swap_remove(name);
        }
    }
}

impl Names {
    /// No names yet.
    pub fn new(alloc: Global) -> Names
        ensures { result ≡ [] }
    {
        Names {
            declared: Vec::new(alloc),
            places: IndexMap::new(alloc),
        }
    }

    /// How many there are.
    pub fn len(&self) -> usize
        ensures { result ≡ length self.now }
    {
        self.declared.len()
    }

    /// The place of the newest of this name.
    pub fn newest(&self, name: &Word) -> Option<usize>
        ensures { result ≡ newest name.now self.now }
    {
        self.places.get(name.as_str()).copied()
    }

    /// Whether the name is one of those after the oldest `count`.
    pub fn has_behind(&self, count: usize, name: &Word) -> bool
        ensures { result ≡ list_any (bytes_eq name.now) (drop count self.now) }
    {
        match self.newest(name) {
            Some(place) => count <= place,
            None => false,
        }
    }

    /// One more name. It hides the older ones of its text. If memory runs out there is none more.
    pub fn push(&mut self, alloc: Global, name: &Word) -> Result<(), AllocError>
        ensures pushed { IfOk result (λ _. self.new ≡ self.old ++ name.now ∷ []) }
        ensures kept { IfErr result (λ _. self.new ≡ self.old) }
    {
        let word = name.copy(alloc)?;
        let text = String::from_str(alloc, name.as_str())?;
        self.declared.reserve(1)?;
        let hidden = self.places.insert(text, self.declared.len())?;
        self.declared.push(Declared { word, hidden }).unwrap();
        Ok(())
    }

    /// Forgets the newest name.
    fn pop(&mut self)
        ensures { self.new ≡ take (length self.old - 1) self.old }
    {
        if let Some(declared) = self.declared.pop() {
            restore(&mut self.places, declared.word.as_str(), declared.hidden);
        }
    }

    /// Forgets all but the oldest `count`.
    pub fn truncate(&mut self, count: usize)
        ensures { self.new ≡ take count self.old }
    {
        'names: while count < self.len() {
            self.pop();
        }
    }
}
