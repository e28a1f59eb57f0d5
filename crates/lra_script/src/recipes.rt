//! How lines make sets.

ghost use Rattle.std.specs.Option.{option_or};
ghost use Rattle.std.specs.Prelude.{◌≡◌, ◌≤◌, IfOk, IfSome, option_map, string_bytes};
ghost use Rattle.lra_script.specs.LineForms as form;
ghost use Rattle.lra_script.specs.Views.{texts, recipe_view, IsRecipe};

use crate::numbers::{coefficients_of, lone_number, name_of, small_number};
use crate::rows::{Constraint, Generator, rows_of, written_generators};
use std::alloc::{AllocError, Global};

/// What is made of two sets: their meet, their hull, or all that is reached from the one along the other.
#[derive(Clone, Copy, Debug, PartialEq, Eq)]
pub enum Combination {
    Meet,
    Hull,
    Elapse,
}

/// How a form in place of a coordinate maps a set: to the image of its points, or to the points whose image is in it.
#[derive(Clone, Copy, Debug, PartialEq, Eq)]
pub enum Mapping {
    Image,
    Preimage,
}

/// How a set is made.
pub enum Recipe {
    /// Of what meets these constraints.
    Con(Vec<Constraint>),

    /// Of what these generate.
    Gen(Vec<Generator>),

    /// Of two sets.
    Combine(Combination, String, String),

    /// Of a set, widened by another, in which it lies.
    Widen(String, String),

    /// Of a set, widened by another, in which it lies, with those of the constraints that are valid on both.
    Limited(String, String, Vec<Constraint>),

    /// Of a set, by the form, its constant first, in place of the coordinate of this number, from 1.
    Map(Mapping, String, usize, Vec<i64>),

    /// Of a set, with any value of the coordinate of this number, from 1.
    Forget(String, usize),
}

impl Drop for Recipe {
    fn drop(self) {
        match self {
            Recipe::Con(_) => {}
            Recipe::Gen(_) => {}
            Recipe::Combine(_, _, _) => {}
            Recipe::Widen(_, _) => {}
            Recipe::Limited(_, _, _) => {}
            Recipe::Map(_, _, _, _) => {}
            Recipe::Forget(_, _) => {}
        }
    }
}

fn con_recipe(alloc: Global, words: &[&[u8]]) -> Result<Option<Recipe>, AllocError>
    ensures recipe { IfOk result (λ r.
        recipe_view r ≡ option_map form.Con (form.parts_of form.row_of (texts words.now))) }
    ensures sound { IfOk result (λ r. IfSome r IsRecipe) }
{
    match rows_of(alloc, words)? {
        Some(rows) => Ok(Some(Recipe::Con(rows))),
        None => Ok(None),
    }
}

fn gen_recipe(alloc: Global, words: &[&[u8]]) -> Result<Option<Recipe>, AllocError>
    ensures recipe { IfOk result (λ r.
        recipe_view r ≡ option_map form.Gen (form.parts_of form.generator_of (texts words.now))) }
    ensures sound { IfOk result (λ r. IfSome r IsRecipe) }
{
    match written_generators(alloc, words)? {
        Some(generators) => Ok(Some(Recipe::Gen(generators))),
        None => Ok(None),
    }
}

fn combine_recipe(
    alloc: Global,
    how: Combination,
    words: &[&[u8]],
) -> Result<Option<Recipe>, AllocError>
    ensures recipe { IfOk result (λ r. recipe_view r ≡ form.combine_recipe how (texts words.now)) }
    ensures sound { IfOk result (λ r. IfSome r IsRecipe) }
{
    let [first, second] = words else {
        return Ok(None);
    };
    let Some(first) = name_of(alloc, first)? else {
        return Ok(None);
    };
    let Some(second) = name_of(alloc, second)? else {
        return Ok(None);
    };
    Ok(Some(Recipe::Combine(how, first, second)))
}

fn widen_recipe(alloc: Global, words: &[&[u8]]) -> Result<Option<Recipe>, AllocError>
    ensures recipe { IfOk result (λ r. recipe_view r ≡ form.widen_recipe (texts words.now)) }
    ensures sound { IfOk result (λ r. IfSome r IsRecipe) }
{
    let [first, second] = words else {
        return Ok(None);
    };
    let Some(first) = name_of(alloc, first)? else {
        return Ok(None);
    };
    let Some(second) = name_of(alloc, second)? else {
        return Ok(None);
    };
    Ok(Some(Recipe::Widen(first, second)))
}

fn limited_recipe(alloc: Global, words: &[&[u8]]) -> Result<Option<Recipe>, AllocError>
    ensures recipe { IfOk result (λ r. recipe_view r ≡ form.limited_recipe (texts words.now)) }
    ensures sound { IfOk result (λ r. IfSome r IsRecipe) }
{
    let [first, second, rest @ ..] = words else {
        return Ok(None);
    };
    let Some(first) = name_of(alloc, first)? else {
        return Ok(None);
    };
    let Some(second) = name_of(alloc, second)? else {
        return Ok(None);
    };
    match rows_of(alloc, rest)? {
        Some(given) => Ok(Some(Recipe::Limited(first, second, given))),
        None => Ok(None),
    }
}

/// What comes after the name of the set that is mapped.
fn map_after(
    alloc: Global,
    how: Mapping,
    from: String,
    words: &[&[u8]],
) -> Result<Option<Recipe>, AllocError>
    ensures recipe { IfOk result (λ r.
        recipe_view r ≡ form.map_after how (string_bytes from) (texts words.now)) }
    ensures sound { IfOk result (λ r. IfSome r IsRecipe) }
{
    let [word, numbers @ ..] = words else {
        return Ok(None);
    };
    let Some(coordinate) = small_number(word) else {
        return Ok(None);
    };
    match coefficients_of(alloc, numbers)? {
        Some(numbers) => Ok(Some(Recipe::Map(how, from, coordinate, numbers))),
        None => Ok(None),
    }
}

fn map_recipe(alloc: Global, how: Mapping, words: &[&[u8]]) -> Result<Option<Recipe>, AllocError>
    ensures recipe { IfOk result (λ r. recipe_view r ≡ form.map_recipe how (texts words.now)) }
    ensures sound { IfOk result (λ r. IfSome r IsRecipe) }
{
    let [from, rest @ ..] = words else {
        return Ok(None);
    };
    match name_of(alloc, from)? {
        Some(from) => map_after(alloc, how, from, rest),
        None => Ok(None),
    }
}

fn forget_recipe(alloc: Global, words: &[&[u8]]) -> Result<Option<Recipe>, AllocError>
    ensures recipe { IfOk result (λ r. recipe_view r ≡ form.forget_recipe (texts words.now)) }
    ensures sound { IfOk result (λ r. IfSome r IsRecipe) }
{
    let [from, rest @ ..] = words else {
        return Ok(None);
    };
    let Some(from) = name_of(alloc, from)? else {
        return Ok(None);
    };
    match lone_number(rest) {
        Some(coordinate) => Ok(Some(Recipe::Forget(from, coordinate))),
        None => Ok(None),
    }
}

/// What a line of this first word says after the name, if its set is made of two others.
fn pair_recipe(alloc: Global, word: &[u8], rest: &[&[u8]]) -> Result<Option<Recipe>, AllocError>
    ensures recipe { IfOk result (λ r. recipe_view r ≡ form.pair_recipe word.now (texts rest.now)) }
    ensures sound { IfOk result (λ r. IfSome r IsRecipe) }
{
    if word == b"meet".as_slice() {
        combine_recipe(alloc, Combination::Meet, rest)
    } else if word == b"hull".as_slice() {
        combine_recipe(alloc, Combination::Hull, rest)
    } else if word == b"elapse".as_slice() {
        combine_recipe(alloc, Combination::Elapse, rest)
    } else if word == b"widen".as_slice() {
        widen_recipe(alloc, rest)
    } else if word == b"limited".as_slice() {
        limited_recipe(alloc, rest)
    } else {
        Ok(None)
    }
}

/// What a line of this first word says after the name, if its set is made of others.
fn recipe_of_sets(alloc: Global, word: &[u8], rest: &[&[u8]]) -> Result<Option<Recipe>, AllocError>
    ensures recipe { IfOk result (λ r. recipe_view r ≡ option_or
        (form.pair_recipe word.now (texts rest.now)) (form.change_recipe word.now (texts rest.now))) }
    ensures sound { IfOk result (λ r. IfSome r IsRecipe) }
{
    match pair_recipe(alloc, word, rest)? {
        Some(recipe) => Ok(Some(recipe)),
        None => change_recipe(alloc, word, rest),
    }
}

/// What a line of this first word says after the name, if its set is made of one other.
fn change_recipe(alloc: Global, word: &[u8], rest: &[&[u8]]) -> Result<Option<Recipe>, AllocError>
    ensures recipe { IfOk result (λ r. recipe_view r ≡ form.change_recipe word.now (texts rest.now)) }
    ensures sound { IfOk result (λ r. IfSome r IsRecipe) }
{
    if word == b"image".as_slice() {
        map_recipe(alloc, Mapping::Image, rest)
    } else if word == b"preimage".as_slice() {
        map_recipe(alloc, Mapping::Preimage, rest)
    } else if word == b"forget".as_slice() {
        forget_recipe(alloc, rest)
    } else {
        Ok(None)
    }
}

/// What a line of this first word says after the name.
pub fn read_recipe(alloc: Global, word: &[u8], rest: &[&[u8]]) -> Result<Option<Recipe>, AllocError>
    ensures recipe { IfOk result (λ r. recipe_view r ≡ form.recipe_of word.now (texts rest.now)) }
    ensures sound { IfOk result (λ r. IfSome r IsRecipe) }
{
    if word == b"con".as_slice() {
        con_recipe(alloc, rest)
    } else if word == b"gen".as_slice() {
        gen_recipe(alloc, rest)
    } else {
        recipe_of_sets(alloc, word, rest)
    }
}
