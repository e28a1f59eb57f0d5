//! Where a statement stands.

ghost use Rattle.std.specs.Prelude.{◌≡◌};
ghost use Rattle.lra_resolve_simple.specs.Crates.lra_resolution_spec.NameFaults.{in_a_loop, in_a_switch};
ghost use Rattle.lra_resolve_simple.specs.Statements.{around_of};

use lra_scopes::Functions;
use std::alloc::Global;

/// Among which functions a statement stands, and in what kind of function and of statement.
#[derive(Clone, Copy)]
pub struct Around<'a> {
    pub alloc: Global,
    pub functions: &'a Functions<'a>,
    /// Whether the function has a result; `void` has none.
    pub has_result: bool,
    /// Whether a loop or a `switch` stands around it, which a `break` leaves.
    pub breaks: bool,
    /// Whether a loop stands around it.
    pub continues: bool,
}

impl<'a> Around<'a> {
    /// Where the body of a loop stands that stands here.
    pub fn in_a_loop(&self) -> Around<'a>
        ensures { around_of result ≡ in_a_loop (around_of self.now) }
    {
        Around {
            alloc: self.alloc,
            functions: self.functions,
            has_result: self.has_result,
            breaks: true,
            continues: true,
        }
    }

    /// Where the statements of a `switch` stand that stands here.
    pub fn in_a_switch(&self) -> Around<'a>
        ensures { around_of result ≡ in_a_switch (around_of self.now) }
    {
        Around {
            alloc: self.alloc,
            functions: self.functions,
            has_result: self.has_result,
            breaks: true,
            continues: self.continues,
        }
    }
}
