//! What names mean.

ghost use Rattle.std.specs.Prelude.{◌≡◌, IfOk};
ghost use Rattle.lra_resolution_spec.specs.{NameFaults.length_faults, Scope.array_of, Scope.width_of};
ghost use Rattle.lra_scopes.specs.{Bindings.binding_view, Outcome.StopsAtFirstFault};

use crate::errors::refuse;
use lra_base::{Cause, NumberType, SourceError, is_length};
use lra_program::{Array, Slot};
use lra_syntax::{ArrayLength, Identifier};

/// What a name means: a scalar of this type, or an array.
#[derive(Clone, Copy)]
pub enum Binding {
    Scalar(NumberType),
    Array(Array),
}

impl Binding {
    /// How many scalars it is.
    pub fn width(self) -> usize
        ensures { result ≡ width_of (binding_view self) }
    {
        match self {
            Binding::Scalar(_) => 1,
            Binding::Array(_) => 0,
        }
    }
}

/// What a name means, with its place after the scalars before it; that of an array says nothing.
#[derive(Clone, Copy)]
pub struct Lookup {
    pub slot: Slot,
    pub meaning: Binding,
}

/// The array that a declaration of this type gives the name; `BadLength` if no array may have so many elements.
pub fn build_array(
    number_type: NumberType,
    name: &Identifier,
    length: ArrayLength,
) -> Result<Array, SourceError>
    ensures told { StopsAtFirstFault (length_faults length) result }
    ensures found { IfOk result (λ a. a ≡ array_of number_type name.now length) }
{
    if !is_length(length.value) {
        return refuse(Cause::BadLength, length.place);
    }
    Ok(Array {
        declared: name.place,
        length: length.value as u32,
        number_type,
    })
}
