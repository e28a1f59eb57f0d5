//! The functions of a source, found by their names.

ghost use Rattle.std.specs.Option.{option_or};
ghost use Rattle.std.specs.Prelude.{◌≡◌, ℕ, List, option_map, bytes_eq, IfOk, OnOk};
ghost use Rattle.indexmap.specs.IndexMap.{get_by_text};
ghost use Rattle.lra_syntax.specs.{Functions.function_named, Views.function_view};
ghost use Rattle.lra_resolution_spec.specs.Resolve.{function_place};
ghost use Rattle.lra_scopes.specs.{Calls.functions_at, Signatures.signature_at, Signatures.named_signature};

use indexmap::IndexMap;
use lra_syntax::{ExternalDeclaration, Function, Word};
use std::alloc::{AllocError, Global};
use std::marker::Model;

/// What a call needs to know of a function.
#[derive(Clone, Copy)]
pub struct Signature {
    /// The function's place in the list of functions.
    pub place: usize,
    /// How many parameters the function has.
    pub parameters: usize,
    /// Whether it has a result; `void` has none.
    pub has_result: bool,
}

/// The functions of a source's parts. The first of a name is found by its hash, and not by going through them.
pub struct Functions<'a> {
    parts: &'a [ExternalDeclaration],
    signatures: IndexMap<String, Signature>,
}

impl<'a> Drop for Functions<'a> {
    fn drop(self) {
        let Functions {
            parts: _,
            signatures: _,
        } = self;
    }
}

impl<'a> Model for Functions<'a> {
    ghost use Rattle.std.specs.{Coded.coded_list, Prelude.List};
    ghost use Rattle.lra_syntax.specs.contracts.trees.ExternalDeclaration as item;
    ghost use Rattle.lra_syntax.specs.declared.trees.ExternalDeclaration.{ExternalDeclaration};
    ghost use Rattle.lra_scopes.specs.Signatures.{HasSignatures};

    ghost Value = { List ExternalDeclaration };

    ghost coded = { coded_list item.the_row.coded };

    ghost view = { λ f. f.parts.now };

    ghost invariant = { λ f. HasSignatures f.signatures f.parts.now };
}

/// Adds a function's signature, unless there is one of its name.
fn add_signature(
    alloc: Global,
    signatures: &mut IndexMap<String, Signature>,
    place: usize,
    function: &Function,
) -> Result<(), AllocError>
    ensures { OnOk result ((name : List ℕ) → get_by_text signatures.new name
        ≡ option_or (get_by_text signatures.old name) (named_signature name place (function_view function.now))) }
{
    let name = function.name.word.as_str();
    if signatures.contains_key(name) {
        return Ok(());
    }
    let text = String::from_str(alloc, name)?;
    let signature = Signature {
        place,
        parameters: function.parameters.items.len(),
        has_result: function.result_type.is_some(),
    };
    signatures.insert(text, signature)?;
    Ok(())
}

impl<'a> Functions<'a> {
    /// The functions among these parts.
    pub fn new(alloc: Global, parts: &'a [ExternalDeclaration]) -> Result<Functions<'a>, AllocError>
        ensures { IfOk result (λ f. f ≡ parts.now) }
    {
        let mut signatures = IndexMap::new(alloc);
        let mut place = 0;
        'parts: for item in parts {
            match item {
                ExternalDeclaration::Prototype => {}
                ExternalDeclaration::Globals(_) => {}
                ExternalDeclaration::Function(function) => {
                    add_signature(alloc, &mut signatures, place, function)?;
                    place += 1;
                }
            }
        }
        Ok(Functions { parts, signatures })
    }

    /// The parts of the source.
    pub fn parts(&self) -> &'a [ExternalDeclaration]
        ensures { result.now ≡ self.now }
    {
        self.parts
    }

    /// The first function of this name.
    pub fn find(&self, name: &Word) -> Option<Signature>
        ensures { result ≡ option_map (signature_at (function_place (functions_at self.now) name.now))
            (function_named (functions_at self.now) name.now) }
    {
        self.signatures.get(name.as_str()).copied()
    }
}
