//! What a line says.

ghost use Rattle.std.specs.Prelude.{◌≡◌, IfOk, IfSome, option_map};
ghost use Rattle.lra_script.specs.LineForms as form;
ghost use Rattle.lra_script.specs.Views.{texts, line_view, IsLine};

use crate::numbers::{lone_number, name_of};
use crate::questions::{Question, read_question};
use crate::recipes::{Recipe, read_recipe};
use std::alloc::{AllocError, Global};

/// What a line says.
pub enum Line {
    /// How many dimensions all that follows has.
    Dims(usize),

    /// The name is to stand for what the recipe makes.
    Make(String, Recipe),

    /// The answer is to be printed.
    Ask(Question),
}

impl Drop for Line {
    fn drop(self) {
        match self {
            Line::Dims(_) => {}
            Line::Make(_, _) => {}
            Line::Ask(_) => {}
        }
    }
}

fn dims_line(words: &[&[u8]]) -> Option<Line>
    ensures line { line_view result ≡ option_map form.Dims (form.lone_number (texts words.now)) }
    ensures sound { IfSome result IsLine }
{
    Some(Line::Dims(lone_number(words)?))
}

fn make_line(alloc: Global, word: &[u8], rest: &[&[u8]]) -> Result<Option<Line>, AllocError>
    ensures line { IfOk result (λ r. line_view r ≡ form.make_line word.now (texts rest.now)) }
    ensures sound { IfOk result (λ r. IfSome r IsLine) }
{
    let [name, rest @ ..] = rest else {
        return Ok(None);
    };
    let Some(name) = name_of(alloc, name)? else {
        return Ok(None);
    };
    match read_recipe(alloc, word, rest)? {
        Some(recipe) => Ok(Some(Line::Make(name, recipe))),
        None => Ok(None),
    }
}

fn ask_line(alloc: Global, word: &[u8], rest: &[&[u8]]) -> Result<Option<Line>, AllocError>
    ensures line { IfOk result (λ r.
        line_view r ≡ option_map form.Ask (form.question_of word.now (texts rest.now))) }
    ensures sound { IfOk result (λ r. IfSome r IsLine) }
{
    match read_question(alloc, word, rest)? {
        Some(question) => Ok(Some(Line::Ask(question))),
        None => Ok(None),
    }
}

/// What the words say, if they are a line.
pub fn read_line(alloc: Global, words: &[&[u8]]) -> Result<Option<Line>, AllocError>
    ensures line { IfOk result (λ r. line_view r ≡ form.line_of (texts words.now)) }
    ensures sound { IfOk result (λ r. IfSome r IsLine) }
{
    let [word, rest @ ..] = words else {
        return Ok(None);
    };
    if *word == b"dims".as_slice() {
        return Ok(dims_line(rest));
    }
    match make_line(alloc, word, rest)? {
        Some(line) => Ok(Some(line)),
        None => ask_line(alloc, word, rest),
    }
}
