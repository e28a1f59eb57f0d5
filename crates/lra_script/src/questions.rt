//! What lines ask of sets.

ghost use Rattle.std.specs.Prelude.{◌≡◌, IfOk, IfSome};
ghost use Rattle.lra_script.specs.LineForms as form;
ghost use Rattle.lra_script.specs.Views.{texts, question_view, IsQuestion};

use crate::numbers::{coefficients_of, name_of, numbers_of};
use crate::rows::has_divisor;
use std::alloc::{AllocError, Global};

/// What is asked of the sets that names stand for.
pub enum Question {
    /// The constraints and the generators of the set.
    Show(String),

    /// Whether the point is in the set; its divisor first, then the numerators.
    Holds(String, Vec<i128>),

    /// Whether each point of the first set is in the second.
    Include(String, String),

    /// The greatest value of the form, its constant first, on the set.
    Maximise(String, Vec<i64>),
}

impl Drop for Question {
    fn drop(self) {
        match self {
            Question::Show(_) => {}
            Question::Holds(_, _) => {}
            Question::Include(_, _) => {}
            Question::Maximise(_, _) => {}
        }
    }
}

fn show_question(alloc: Global, words: &[&[u8]]) -> Result<Option<Question>, AllocError>
    ensures question { IfOk result (λ r. question_view r ≡ form.show_question (texts words.now)) }
    ensures sound { IfOk result (λ r. IfSome r IsQuestion) }
{
    let [name] = words else {
        return Ok(None);
    };
    match name_of(alloc, name)? {
        Some(name) => Ok(Some(Question::Show(name))),
        None => Ok(None),
    }
}

fn holds_question(alloc: Global, words: &[&[u8]]) -> Result<Option<Question>, AllocError>
    ensures question { IfOk result (λ r. question_view r ≡ form.holds_question (texts words.now)) }
    ensures sound { IfOk result (λ r. IfSome r IsQuestion) }
{
    let [name, numbers @ ..] = words else {
        return Ok(None);
    };
    let Some(name) = name_of(alloc, name)? else {
        return Ok(None);
    };
    let Some(point) = numbers_of(alloc, numbers)? else {
        return Ok(None);
    };
    if !has_divisor(&point) {
        return Ok(None);
    }
    Ok(Some(Question::Holds(name, point)))
}

fn include_question(alloc: Global, words: &[&[u8]]) -> Result<Option<Question>, AllocError>
    ensures question { IfOk result (λ r. question_view r ≡ form.include_question (texts words.now)) }
    ensures sound { IfOk result (λ r. IfSome r IsQuestion) }
{
    let [first, second] = words else {
        return Ok(None);
    };
    let Some(first) = name_of(alloc, first)? else {
        return Ok(None);
    };
    let Some(second) = name_of(alloc, second)? else {
        return Ok(None);
    };
    Ok(Some(Question::Include(first, second)))
}

fn maximise_question(alloc: Global, words: &[&[u8]]) -> Result<Option<Question>, AllocError>
    ensures question { IfOk result (λ r. question_view r ≡ form.maximise_question (texts words.now)) }
    ensures sound { IfOk result (λ r. IfSome r IsQuestion) }
{
    let [name, numbers @ ..] = words else {
        return Ok(None);
    };
    let Some(name) = name_of(alloc, name)? else {
        return Ok(None);
    };
    match coefficients_of(alloc, numbers)? {
        Some(numbers) => Ok(Some(Question::Maximise(name, numbers))),
        None => Ok(None),
    }
}

/// What a line of this first word asks.
pub fn read_question(
    alloc: Global,
    word: &[u8],
    rest: &[&[u8]],
) -> Result<Option<Question>, AllocError>
    ensures question { IfOk result (λ r. question_view r ≡ form.question_of word.now (texts rest.now)) }
    ensures sound { IfOk result (λ r. IfSome r IsQuestion) }
{
    if word == b"show".as_slice() {
        show_question(alloc, rest)
    } else if word == b"holds".as_slice() {
        holds_question(alloc, rest)
    } else if word == b"include".as_slice() {
        include_question(alloc, rest)
    } else if word == b"maximise".as_slice() {
        maximise_question(alloc, rest)
    } else {
        Ok(None)
    }
}
