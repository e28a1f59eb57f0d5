//! Names of variables.

ghost use Rattle.std.specs.Prelude.{◌≡◌, ◌++◌, ◌∷◌, [], length, map, IfOk, OnOk, OnErr, string_bytes};
ghost use Rattle.lra_row_text.specs.Whole.{numbered_names};

use std::alloc::{AllocError, Global};
use std::marker::Model;

/// The names of variables, in order.
pub struct Names {
    texts: Vec<String>,
}

impl Drop for Names {
    fn drop(self) {
        let Names { texts: _ } = self;
    }
}

impl Model for Names {
    ghost use Rattle.std.specs.Prelude.{List, ℕ, map, string_bytes};

    ghost Value = { List (List ℕ) };

    ghost view = { λ n. map string_bytes n.texts.items };
}

impl Names {
    /// No name.
    pub fn new(alloc: Global) -> Names
        ensures { result ≡ [] }
    {
        Names {
            texts: Vec::new(alloc),
        }
    }

    /// The names x1, x2, and on, of so many variables.
    pub fn numbered(alloc: Global, n: usize) -> Result<Names, AllocError>
        ensures names { IfOk result (λ names. names ≡ numbered_names n) }
        ensures count { IfOk result (λ names. length names ≡ n) }
    {
        let mut names = Names::new(alloc);
        for place in 0..n {
            let number = place + 1;
            let name = format!(in alloc; "x{number}")?;
            names.push(name.as_str())?;
        }
        Ok(names)
    }

    /// Adds the name of the next variable.
    pub fn push(&mut self, name: &str) -> Result<(), AllocError>
        ensures ok { OnOk result (self.new ≡ self.old ++ name.now ∷ []) }
        ensures unchanged { OnErr result (self.new ≡ self.old) }
    {
        let text = String::from_str(*self.texts.allocator(), name)?;
        self.texts.push(text)?;
        Ok(())
    }

    /// The names, in order.
    pub fn texts(&self) -> &[String]
        ensures { map string_bytes result.now ≡ self.now }
    {
        self.texts.as_slice()
    }
}
