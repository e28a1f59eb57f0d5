//! Globals.

ghost use Rattle.std.specs.Prelude.{◌<◌, ◌≤◌, length, IfOk};
ghost use Rattle.lra_syntax.specs.Trees.{globals};
ghost use Rattle.lra_syntax.specs.Views.{shape_view, global_view, globals_view, external_view};
ghost use Rattle.lra_parser_spec.specs.Files.{global_rest, global_at, globals_of, globals_at};
ghost use Rattle.lra_parser_spec.specs.Reading.{ParsesAs, map_read};
ghost use Rattle.lra_parser_spec.specs.Statements.{commas_from, shape_at, signed_at};

use lra_base::NumberType;
use lra_parse_statements::{read_length, read_signed};
use lra_parser_spec::{Stopped, expect, next_is, read_name, tail};
use lra_syntax::{
    ExternalDeclaration, Global as Variable, Globals, Identifier, Mark, ScalarOrArray,
    SignedLiteral, Token,
};
use std::alloc::Global;

/// What a global is declared as, after its name.
fn read_shape(rest: &[Token]) -> Result<(ScalarOrArray<SignedLiteral>, &[Token]), Stopped>
    ensures shorter { IfOk result (λ r. length r.1.now ≤ length rest.now) }
    ensures gives { ParsesAs (λ r. (shape_view (λ v. v) r.0, r.1.now)) result
        (shape_at signed_at rest.now) }
{
    if next_is(rest, Mark::OpenBracket) {
        let (elements, closed) = read_length(rest)?;
        return Ok((ScalarOrArray::Array(elements), closed));
    }
    if next_is(rest, Mark::Assign) {
        let behind = expect(rest, Mark::Assign)?;
        let (value, after) = read_signed(behind)?;
        return Ok((ScalarOrArray::Scalar(Some(value)), after));
    }
    Ok((ScalarOrArray::Scalar(None), rest))
}

/// The global whose name was read.
fn read_global_rest(name: Identifier, rest: &[Token]) -> Result<(Variable, &[Token]), Stopped>
    ensures shorter { IfOk result (λ r. length r.1.now ≤ length rest.now) }
    ensures gives { ParsesAs (λ r. (global_view r.0, r.1.now)) result (global_rest name rest.now) }
{
    let (shape, after) = read_shape(rest)?;
    Ok((Variable { name, shape }, after))
}

/// A global: its name, and what it is declared as.
fn read_global(alloc: Global, rest: &[Token]) -> Result<(Variable, &[Token]), Stopped>
    ensures shorter { IfOk result (λ r. length r.1.now ≤ length rest.now) }
    ensures gives { ParsesAs (λ r. (global_view r.0, r.1.now)) result (global_at rest.now) }
{
    let (name, behind) = read_name(alloc, rest)?;
    let (global, after) = read_global_rest(name, behind)?;
    Ok((global, after))
}

/// Globals with commas between them, after their type and the name of the first.
fn read_many(
    alloc: Global,
    number_type: NumberType,
    name: Identifier,
    rest: &[Token],
) -> Result<(Globals, &[Token]), Stopped>
    ensures shorter { IfOk result (λ r. length r.1.now ≤ length rest.now) }
    ensures gives { ParsesAs (λ r. (globals (globals_view r.0), r.1.now)) result
        (map_read (globals_of number_type) (commas_from (global_rest name) global_at) rest.now) }
{
    let (first, mut left) = read_global_rest(name, rest)?;
    let mut globals = Vec::new(alloc);
    'globals: while next_is(left, Mark::Comma) {
        let (global, after) = read_global(alloc, tail(left))?;
        globals.push(global)?;
        left = after;
    }
    Ok((
        Globals {
            number_type,
            first,
            rest: globals,
        },
        left,
    ))
}

/// Globals with their semicolon, after their type and the name of the first.
pub fn read_globals(
    alloc: Global,
    number_type: NumberType,
    name: Identifier,
    rest: &[Token],
) -> Result<(ExternalDeclaration, &[Token]), Stopped>
    ensures shorter { IfOk result (λ r. length r.1.now < length rest.now) }
    ensures gives { ParsesAs (λ r. (external_view r.0, r.1.now)) result (globals_at number_type name rest.now) }
{
    let (globals, behind) = read_many(alloc, number_type, name, rest)?;
    let after = expect(behind, Mark::Semicolon)?;
    Ok((ExternalDeclaration::Globals(globals), after))
}
