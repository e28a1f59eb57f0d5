//! Parts and whole files.

ghost use Rattle.std.specs.Prelude.{◌≡◌, ◌<◌, ◌≤◌, [], ◌∷◌, length, Some, option_map, IfOk};
ghost use Rattle.lra_syntax.specs.Views.{block_view, function_view, external_view, tree_view};
ghost use Rattle.lra_parser_spec.specs.declared.lead.Lead.TheVariants as lead;
ghost use Rattle.lra_parser_spec.specs.Files.{next_end, next_built_in, named, lead_behind, at_type, at_void, lead_form};
ghost use Rattle.lra_parser_spec.specs.Files.{plain_lead, read_lead, ends_parameter, name_or_none, parameter_at};
ghost use Rattle.lra_parser_spec.specs.Files.{parameters_at, all_named, signature_of, function_of, ending};
ghost use Rattle.lra_parser_spec.specs.Files.{signature_at, rest_at, part_at, begins_part, file_at};
ghost use Rattle.lra_parser_spec.specs.Reading.{ParsesAs, map_read, take_by, has};
ghost use Rattle.lra_parser_spec.specs.{Statements.commas, Statements.listed, Tests.first};
ghost use Rattle.lra_parse.specs.Heads.{signature_view};

use crate::globals::read_globals;
use lra_base::{Cause, NumberType, Place};
use lra_parse_statements::{read_body, read_type};
use lra_parser_spec::{Lead, Stopped, expect, next_is, next_is_name, read_name, stop, tail};
use lra_syntax::{
    Block, ExternalDeclaration, Function, Identifier, Kind, Mark, Parameter, Parameters, Token,
    TranslationUnit,
};
use std::alloc::{AllocError, Global};

/// The part, after what it begins with.
fn read_rest(
    alloc: Global,
    lead: Lead,
    rest: &[Token],
) -> Result<(ExternalDeclaration, &[Token]), Stopped>
    ensures shorter { IfOk result (λ r. length r.1.now < length rest.now) }
    ensures gives { ParsesAs (λ r. (external_view r.0, r.1.now)) result (rest_at 63 lead rest.now) }
{
    match lead.split() {
        Ok((number_type, name)) => read_typed(alloc, number_type, name, rest),
        Err(head) => read_signature(alloc, head, rest),
    }
}

// Whether the next token is a word that a prototype may have in place of a name.
fn next_is_built_in(rest: &[Token]) -> bool
    ensures { result ≡ has (next_built_in (first rest.now)) }
{
    if next_is(rest, Mark::Input) {
        return true;
    }
    if next_is(rest, Mark::Assert) {
        return true;
    }
    next_is(rest, Mark::Assume)
}

/// What a part with this name begins with, after a type or after `void`.
fn build_lead(result_type: Option<NumberType>, name: Identifier) -> Lead
    ensures { result ≡ named result_type name }
{
    match result_type {
        Some(number_type) => Lead::Typed(number_type, name),
        None => Lead::Void(name),
    }
}

/// A name, or a word in its place.
fn read_called(
    alloc: Global,
    result_type: Option<NumberType>,
    rest: &[Token],
) -> Result<(Lead, &[Token]), Stopped>
    ensures shorter { IfOk result (λ r. length r.1.now ≤ length rest.now) }
    ensures gives { ParsesAs (λ r. (r.0, r.1.now)) result (lead_behind result_type rest.now) }
{
    if next_is_built_in(rest) {
        return Ok((Lead::Bare, tail(rest)));
    }
    let (name, after) = read_name(alloc, rest)?;
    Ok((build_lead(result_type, name), after))
}

/// A type, and a name or a word in its place.
fn read_typed_lead(alloc: Global, rest: &[Token]) -> Result<(Lead, &[Token]), Stopped>
    ensures shorter { IfOk result (λ r. length r.1.now < length rest.now) }
    ensures gives { ParsesAs (λ r. (r.0, r.1.now)) result (lead_form (Some at_type) rest.now) }
{
    let (number_type, words) = read_type(rest)?;
    let (lead, after) = read_called(alloc, Some(number_type), words)?;
    Ok((lead, after))
}

/// `void`, and a name or a word in its place.
fn read_void_lead(alloc: Global, rest: &[Token]) -> Result<(Lead, &[Token]), Stopped>
    ensures shorter { IfOk result (λ r. length r.1.now < length rest.now) }
    ensures gives { ParsesAs (λ r. (r.0, r.1.now)) result (lead_form (Some at_void) rest.now) }
{
    let word = expect(rest, Mark::Void)?;
    let (lead, after) = read_called(alloc, None, word)?;
    Ok((lead, after))
}

/// What a part begins with after `extern`, or without it.
fn read_plain_lead(alloc: Global, rest: &[Token]) -> Result<(Lead, &[Token]), Stopped>
    ensures shorter { IfOk result (λ r. length r.1.now < length rest.now) }
    ensures gives { ParsesAs (λ r. (r.0, r.1.now)) result (plain_lead rest.now) }
{
    if next_is(rest, Mark::Int) {
        return read_typed_lead(alloc, rest);
    }
    if next_is(rest, Mark::Long) {
        return read_typed_lead(alloc, rest);
    }
    if next_is(rest, Mark::Void) {
        return read_void_lead(alloc, rest);
    }
    stop(Cause::Syntax, rest)
}

/// What a part begins with.
fn read_lead(alloc: Global, rest: &[Token]) -> Result<(Lead, &[Token]), Stopped>
    ensures shorter { IfOk result (λ r. length r.1.now < length rest.now) }
    ensures gives { ParsesAs (λ r. (r.0, r.1.now)) result (read_lead rest.now) }
{
    if next_is(rest, Mark::Extern) {
        let word = expect(rest, Mark::Extern)?;
        let (_lead, after) = read_plain_lead(alloc, word)?;
        return Ok((Lead::Bare, after));
    }
    let (lead, after) = read_plain_lead(alloc, rest)?;
    Ok((lead, after))
}

// Whether the next token is a mark after a parameter.
fn ends_parameter(rest: &[Token]) -> bool
    ensures { result ≡ ends_parameter (first rest.now) }
{
    if next_is(rest, Mark::Comma) {
        return true;
    }
    next_is(rest, Mark::CloseParen)
}

/// A parameter of this type, or nothing if it ends without a name.
fn read_name_or_none(
    alloc: Global,
    number_type: NumberType,
    rest: &[Token],
) -> Result<(Option<Parameter>, &[Token]), Stopped>
    ensures shorter { IfOk result (λ r. length r.1.now ≤ length rest.now) }
    ensures gives { ParsesAs (λ r. (r.0, r.1.now)) result (name_or_none number_type rest.now) }
{
    if next_is_name(rest) {
        let (name, after) = read_name(alloc, rest)?;
        return Ok((Some(Parameter { number_type, name }), after));
    }
    if ends_parameter(rest) {
        return Ok((None, rest));
    }
    stop(Cause::Syntax, rest)
}

/// A parameter, if it has a name.
fn read_parameter(alloc: Global, rest: &[Token]) -> Result<(Option<Parameter>, &[Token]), Stopped>
    ensures shorter { IfOk result (λ r. length r.1.now < length rest.now) }
    ensures gives { ParsesAs (λ r. (r.0, r.1.now)) result (parameter_at rest.now) }
{
    let (number_type, words) = read_type(rest)?;
    let (parameter, after) = read_name_or_none(alloc, number_type, words)?;
    Ok((parameter, after))
}

/// The list of this parameter.
fn start_list(alloc: Global, first: Option<Parameter>) -> Result<Vec<Option<Parameter>>, AllocError>
    ensures { IfOk result (λ v. v.items ≡ first ∷ []) }
{
    let mut items = Vec::new(alloc);
    items.push(first)?;
    Ok(items)
}

/// Parameters with commas between them.
fn read_many(alloc: Global, rest: &[Token]) -> Result<(Vec<Option<Parameter>>, &[Token]), Stopped>
    ensures shorter { IfOk result (λ r. length r.1.now ≤ length rest.now) }
    ensures gives { ParsesAs (λ r. (r.0.items, r.1.now)) result (map_read listed (commas parameter_at) rest.now) }
{
    let (first, mut left) = read_parameter(alloc, rest)?;
    let mut items = start_list(alloc, first)?;
    'many: while next_is(left, Mark::Comma) {
        let (parameter, after) = read_parameter(alloc, tail(left))?;
        items.push(parameter)?;
        left = after;
    }
    Ok((items, left))
}

/// Parameters, after the opening parenthesis, with the closing one.
fn read_parameters(
    alloc: Global,
    rest: &[Token],
) -> Result<(Vec<Option<Parameter>>, &[Token]), Stopped>
    ensures shorter { IfOk result (λ r. length r.1.now ≤ length rest.now) }
    ensures gives { ParsesAs (λ r. (r.0.items, r.1.now)) result (parameters_at rest.now) }
{
    if next_is(rest, Mark::CloseParen) {
        return Ok((Vec::new(alloc), tail(rest)));
    }
    if next_is(rest, Mark::Void) {
        let after = expect(tail(rest), Mark::CloseParen)?;
        return Ok((Vec::new(alloc), after));
    }
    let (parameters, behind) = read_many(alloc, rest)?;
    let closed = expect(behind, Mark::CloseParen)?;
    Ok((parameters, closed))
}

/// The parameters, if each has a name.
fn all_named(
    alloc: Global,
    parameters: Vec<Option<Parameter>>,
) -> Result<Option<Parameters>, AllocError>
    ensures { IfOk result (λ o. option_map (λ p. p.items.items) o ≡ all_named parameters.items) }
{
    let mut items = Vec::new(alloc);
    let mut are_named = true;
    'names: for parameter in parameters {
        match parameter {
            Some(named) => items.push(named)?,
            None => are_named = false,
        }
    }
    if are_named {
        Ok(Some(Parameters { items }))
    } else {
        Ok(None)
    }
}

/// What a function has before its body.
struct Signature {
    result_type: Option<NumberType>,
    name: Identifier,
    parameters: Parameters,
}

impl Drop for Signature {
    fn drop(self) {
        let Signature {
            result_type: _,
            name: _,
            parameters: _,
        } = self;
    }
}

impl Signature {
    // The function with this body.
    fn into_function(self, body: Block) -> Function
        ensures { function_view result ≡ function_of (signature_view self) (block_view body) }
    {
        let Signature {
            result_type,
            name,
            parameters,
        } = self;
        Function {
            result_type,
            name,
            parameters,
            body,
        }
    }
}

/// What a function has, if there is a name, and each parameter has one.
fn signature_of(
    alloc: Global,
    head: Option<(Option<NumberType>, Identifier)>,
    parameters: Vec<Option<Parameter>>,
) -> Result<Option<Signature>, AllocError>
    ensures { IfOk result (λ o. option_map signature_view o ≡ signature_of head parameters.items) }
{
    let (result_type, name) = match head {
        Some(head) => head,
        None => return Ok(None),
    };
    match all_named(alloc, parameters)? {
        Some(parameters) => Ok(Some(Signature {
            result_type,
            name,
            parameters,
        })),
        None => Ok(None),
    }
}

/// What comes after the parameters: a body, whose brace opens the first level, or a semicolon.
fn read_ending(
    alloc: Global,
    signature: Option<Signature>,
    rest: &[Token],
) -> Result<(ExternalDeclaration, &[Token]), Stopped>
    ensures shorter { IfOk result (λ r. length r.1.now < length rest.now) }
    ensures gives { ParsesAs (λ r. (external_view r.0, r.1.now)) result
        (ending 63 (option_map signature_view signature) rest.now) }
{
    match signature {
        Some(signature) => {
            if next_is(rest, Mark::OpenBrace) {
                let (body, after) = read_body(alloc, rest)?;
                return Ok((
                    ExternalDeclaration::Function(signature.into_function(body)),
                    after,
                ));
            }
            let after = expect(rest, Mark::Semicolon)?;
            Ok((ExternalDeclaration::Prototype, after))
        }
        None => {
            let after = expect(rest, Mark::Semicolon)?;
            Ok((ExternalDeclaration::Prototype, after))
        }
    }
}

/// A function or a prototype, after what it begins with.
fn read_signature(
    alloc: Global,
    head: Option<(Option<NumberType>, Identifier)>,
    rest: &[Token],
) -> Result<(ExternalDeclaration, &[Token]), Stopped>
    ensures shorter { IfOk result (λ r. length r.1.now < length rest.now) }
    ensures gives { ParsesAs (λ r. (external_view r.0, r.1.now)) result
        (signature_at 63 head rest.now) }
{
    let opened = expect(rest, Mark::OpenParen)?;
    let (parameters, closed) = read_parameters(alloc, opened)?;
    let signature = signature_of(alloc, head, parameters)?;
    let (item, after) = read_ending(alloc, signature, closed)?;
    Ok((item, after))
}

/// A part, after this type and this name.
fn read_typed(
    alloc: Global,
    number_type: NumberType,
    name: Identifier,
    rest: &[Token],
) -> Result<(ExternalDeclaration, &[Token]), Stopped>
    ensures shorter { IfOk result (λ r. length r.1.now < length rest.now) }
    ensures gives { ParsesAs (λ r. (external_view r.0, r.1.now)) result
        (rest_at 63 (lead.Typed number_type name) rest.now) }
{
    if next_is(rest, Mark::OpenParen) {
        let (item, after) = read_signature(alloc, Some((Some(number_type), name)), rest)?;
        return Ok((item, after));
    }
    let (item, after) = read_globals(alloc, number_type, name, rest)?;
    Ok((item, after))
}

/// A function, a prototype or globals.
fn read_part(alloc: Global, rest: &[Token]) -> Result<(ExternalDeclaration, &[Token]), Stopped>
    ensures shorter { IfOk result (λ r. length r.1.now < length rest.now) }
    ensures gives { ParsesAs (λ r. (external_view r.0, r.1.now)) result (part_at 63 rest.now) }
{
    let (lead, behind) = read_lead(alloc, rest)?;
    let (item, after) = read_rest(alloc, lead, behind)?;
    Ok((item, after))
}

// Whether the next token begins a part.
fn begins_part(rest: &[Token]) -> bool
    ensures { result ≡ begins_part (first rest.now) }
{
    if next_is(rest, Mark::Extern) {
        return true;
    }
    if next_is(rest, Mark::Int) {
        return true;
    }
    if next_is(rest, Mark::Long) {
        return true;
    }
    next_is(rest, Mark::Void)
}

/// The place of the end, if it is the next token.
fn read_end(rest: &[Token]) -> Result<(Place, &[Token]), Stopped>
    ensures { ParsesAs (λ r. (r.0, r.1.now)) result (take_by next_end rest.now) }
{
    match rest.first() {
        Some(token) => match &token.kind {
            Kind::End => Ok((token.place, tail(rest))),
            _ => stop(Cause::Syntax, rest),
        },
        None => stop(Cause::Syntax, rest),
    }
}

/// Parts, and the end.
pub fn read_file(alloc: Global, rest: &[Token]) -> Result<(TranslationUnit, &[Token]), Stopped>
    ensures { ParsesAs (λ r. (tree_view r.0, r.1.now)) result (file_at 63 rest.now) }
{
    let mut left = rest;
    let mut items = Vec::new(alloc);
    'parts: while begins_part(left) {
        let (item, after) = read_part(alloc, left)?;
        items.push(item)?;
        left = after;
    }
    let (end, behind) = read_end(left)?;
    Ok((TranslationUnit { items, end }, behind))
}
