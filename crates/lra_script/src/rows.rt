//! The rows and generators of a line, as they are written.

ghost use Rattle.std.specs.Prelude.{◌≡◌, map, IfOk, IfSome, Some, None, true, bytes_eq, codes, option_map};
ghost use Rattle.std.specs.{List.slice_split, List.All, Prelude.if◌then◌else◌};
ghost use Rattle.lra_script.specs.Crates.lra_linear_spec.Kinds.{is_equality};
ghost use Rattle.lra_script.specs.LineForms as form;
ghost use Rattle.lra_script.specs.Views.{texts, constraint_of, constraints_of, generator_view, generators_of};
ghost use Rattle.lra_script.specs.{LineForms.all_of, Views.HasDivisor, Views.IsDivided};

use crate::numbers::numbers_of;
use lra_systems::{ConKind, GenKind, Row};
use std::alloc::{AllocError, Global};

/// A constraint as it is written, with any count of numbers.
pub struct Constraint {
    pub row: Row,
    pub kind: ConKind,
}

impl Drop for Constraint {
    fn drop(self) {
        let Constraint { row: _, kind: _ } = self;
    }
}

/// A generator as it is written, with any count of numbers: of a point its divisor first. Column 0 of the others isn't
/// written.
pub struct Generator {
    pub kind: GenKind,
    pub numbers: Row,
}

impl Drop for Generator {
    fn drop(self) {
        let Generator {
            kind: _,
            numbers: _,
        } = self;
    }
}

fn kind_of(relation: &[u8]) -> Option<ConKind>
    ensures { option_map is_equality result ≡ form.equality_of relation.now }
{
    match relation {
        b">=" => Some(ConKind::Ge),
        b"=" => Some(ConKind::Eq),
        _ => None,
    }
}

fn row_of(alloc: Global, words: &[&[u8]]) -> Result<Option<Constraint>, AllocError>
    ensures { IfOk result (λ r. option_map constraint_of r ≡ form.row_of (texts words.now)) }
{
    let [relation, numbers @ ..] = words else {
        return Ok(None);
    };
    let Some(kind) = kind_of(relation) else {
        return Ok(None);
    };
    let Some(numbers) = numbers_of(alloc, numbers)? else {
        return Ok(None);
    };
    let row = Row::from_slice(alloc, &numbers)?;
    Ok(Some(Constraint { row, kind }))
}

fn is_semicolon(word: &[u8]) -> bool
    ensures { result ≡ bytes_eq word.now (codes ";") }
{
    word == b";".as_slice()
}

/// The words before, between and after the semicolons.
fn parts<'a, 'b>(alloc: Global, words: &'b [&'a [u8]]) -> Result<Vec<&'b [&'a [u8]]>, AllocError>
    ensures { IfOk result (λ parts. map (λ p. texts p.now) parts.items ≡
        slice_split (λ w. bytes_eq w (codes ";")) (texts words.now)) }
{
    words.split(|word| is_semicolon(word)).collect(alloc)
}

/// The row that each part says, if each says one.
#[tactic(auto, using(crate::proofs::AllOf::onto_nil))]
fn all_rows(alloc: Global, parts: &[&[&[u8]]]) -> Result<Option<Vec<Constraint>>, AllocError>
    ensures { IfOk result (λ r. constraints_of r ≡ all_of form.row_of (map (λ p. texts p.now) parts.now)) }
{
    let mut rows = Vec::new(alloc);
    for part in parts {
        let Some(row) = row_of(alloc, part)? else {
            return Ok(None);
        };
        rows.push(row)?;
    }
    Ok(Some(rows))
}

/// No row, or the rows that stand before, between and after the semicolons.
pub fn rows_of(alloc: Global, words: &[&[u8]]) -> Result<Option<Vec<Constraint>>, AllocError>
    ensures { IfOk result (λ r. constraints_of r ≡ form.parts_of form.row_of (texts words.now)) }
{
    if words.is_empty() {
        return Ok(Some(Vec::new(alloc)));
    }
    let parts = parts(alloc, words)?;
    all_rows(alloc, &parts)
}

fn generator_kind_of(word: &[u8]) -> Option<GenKind>
    ensures { result ≡ form.kind_of word.now }
{
    match word {
        b"point" => Some(GenKind::Point),
        b"ray" => Some(GenKind::Ray),
        b"line" => Some(GenKind::Line),
        _ => None,
    }
}

/// Whether the first number, if there is one, may be a divisor.
pub fn has_divisor(numbers: &[i128]) -> bool
    ensures numbers { form.with_divisor numbers.now ≡ (if result then Some numbers.now else None) }
    ensures divisor { result ≡ true → HasDivisor numbers.now }
{
    match numbers {
        [] => true,
        [divisor, ..] => *divisor >= 1,
    }
}

/// Whether a point's divisor, if it is there, is at least 1.
fn is_divided(kind: GenKind, numbers: &[i128]) -> bool
    ensures numbers { form.divided kind numbers.now ≡ (if result then Some numbers.now else None) }
    ensures divided { result ≡ true → IsDivided kind numbers.now }
{
    match kind {
        GenKind::Point => has_divisor(numbers),
        GenKind::Ray | GenKind::Line => true,
    }
}

fn written_generator(alloc: Global, words: &[&[u8]]) -> Result<Option<Generator>, AllocError>
    ensures generator { IfOk result (λ r. option_map generator_view r ≡ form.generator_of (texts words.now)) }
    ensures divided { IfOk result (λ r. IfSome r (λ g. IsDivided g.kind g.numbers)) }
{
    let [word, numbers @ ..] = words else {
        return Ok(None);
    };
    let Some(kind) = generator_kind_of(word) else {
        return Ok(None);
    };
    let Some(numbers) = numbers_of(alloc, numbers)? else {
        return Ok(None);
    };
    if !is_divided(kind, &numbers) {
        return Ok(None);
    }
    let numbers = Row::from_slice(alloc, &numbers)?;
    Ok(Some(Generator { kind, numbers }))
}

/// The generator that each part says, if each says one.
#[tactic(auto, using(crate::proofs::AllOf::onto_nil))]
fn all_generators(alloc: Global, parts: &[&[&[u8]]]) -> Result<Option<Vec<Generator>>, AllocError>
    ensures generators { IfOk result (λ r.
        generators_of r ≡ all_of form.generator_of (map (λ p. texts p.now) parts.now)) }
    ensures divided { IfOk result (λ r. IfSome r (λ gs. All (λ g. IsDivided g.kind g.numbers) gs.items)) }
{
    let mut generators = Vec::new(alloc);
    for part in parts {
        let Some(generator) = written_generator(alloc, part)? else {
            return Ok(None);
        };
        generators.push(generator)?;
    }
    Ok(Some(generators))
}

/// No generator, or those that stand before, between and after the semicolons.
pub fn written_generators(
    alloc: Global,
    words: &[&[u8]],
) -> Result<Option<Vec<Generator>>, AllocError>
    ensures generators { IfOk result (λ r. generators_of r ≡ form.parts_of form.generator_of (texts words.now)) }
    ensures divided { IfOk result (λ r. IfSome r (λ gs. All (λ g. IsDivided g.kind g.numbers) gs.items)) }
{
    if words.is_empty() {
        return Ok(Some(Vec::new(alloc)));
    }
    let parts = parts(alloc, words)?;
    all_generators(alloc, &parts)
}
