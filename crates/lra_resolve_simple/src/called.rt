//! Where a statement stands, and what it calls.

ghost use Rattle.std.specs.Prelude.{◌≡◌, option_map, IfOk};
ghost use Rattle.lra_syntax.specs.Labels.{assign_place, called_in, called_of, called_by};
ghost use Rattle.lra_syntax.specs.Views.{rvalue_view, assign_view};

use lra_base::Place;
use lra_syntax::{Assign, Identifier, Rvalue};
use std::alloc::{AllocError, Global};

/// The place of an assignment's first token.
pub fn place_of_assign(assign: &Assign) -> Place
    ensures { result ≡ assign_place (assign_view assign.now) }
{
    match assign {
        Assign::Set(x, _) => x.place,
        Assign::SetElement(x, _, _) => x.place,
        Assign::Update(x, _, _) => x.place,
        Assign::After(x, _) => x.place,
        Assign::Before(place, _, _) => *place,
    }
}

/// A copy of the name that the rvalue calls, if it is a call.
fn copy_callee(alloc: Global, rvalue: &Rvalue) -> Result<Option<Identifier>, AllocError>
    ensures { IfOk result (λ c. c ≡ called_in (rvalue_view rvalue.now)) }
{
    Ok(match rvalue {
        Rvalue::Value(_) => None,
        Rvalue::Result(call) => Some(call.name.copy(alloc)?),
    })
}

/// A copy of the name that the rvalue calls, if there is one, and it is a call.
pub fn copy_given_callee(
    alloc: Global,
    rvalue: &Option<Rvalue>,
) -> Result<Option<Identifier>, AllocError>
    ensures { IfOk result (λ c. c ≡ called_of (option_map rvalue_view rvalue.now)) }
{
    match rvalue {
        None => Ok(None),
        Some(rvalue) => copy_callee(alloc, rvalue),
    }
}

/// A copy of the name that the assignment calls, if it assigns the result of a call.
pub fn copy_assigned_callee(
    alloc: Global,
    assign: &Assign,
) -> Result<Option<Identifier>, AllocError>
    ensures { IfOk result (λ c. c ≡ called_by (assign_view assign.now)) }
{
    match assign {
        Assign::Set(_, rvalue) => copy_callee(alloc, rvalue),
        Assign::SetElement(_, _, rvalue) => copy_callee(alloc, rvalue),
        Assign::Update(_, _, _) => Ok(None),
        Assign::After(_, _) => Ok(None),
        Assign::Before(_, _, _) => Ok(None),
    }
}
