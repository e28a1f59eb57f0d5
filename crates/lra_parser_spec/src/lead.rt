//! What a function or a prototype begins with.

ghost use Rattle.std.specs.Prelude.{◌≡◌};
ghost use Rattle.lra_parser_spec.specs.Files.{split_lead};

use lra_base::NumberType;
use lra_syntax::Identifier;

/// What a part begins with.
pub enum Lead {
    /// A type and a name.
    Typed(NumberType, Identifier),
    /// `void` and a name.
    Void(Identifier),
    /// `extern`, or `input`, `assert` or `assume` in place of a name: what no function begins with.
    Bare,
}

impl Drop for Lead {
    fn drop(self) {
        match self {
            Lead::Typed(_, _) => {}
            Lead::Void(_) => {}
            Lead::Bare => {}
        }
    }
}

impl Lead {
    /// The type and the name with which a function or globals may begin; else the head of a signature: the type of
    /// its result, if it has one, and its name.
    pub fn split(self) -> Result<(NumberType, Identifier), Option<(Option<NumberType>, Identifier)>>
        ensures { result ≡ split_lead self }
    {
        match self {
            Lead::Typed(number_type, name) => Ok((number_type, name)),
            Lead::Void(name) => Err(Some((None, name))),
            Lead::Bare => Err(None),
        }
    }
}
