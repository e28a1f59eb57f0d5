//! Sources made of copies of a text.

use lra_tests_runs::Status;
use lra_tests_runs::memory::{BOXES, SOUND, told, written};
use std::alloc::{AllocError, Global};
use std::process::Abort;

/// A text, and so many copies of a second one between it and a third.
pub type Pieces = (&'static str, &'static str, usize, &'static str);

/// The copies of the second text between the first and the third.
pub fn joined(alloc: Global, (before, middle, count, after): Pieces) -> Result<String, AllocError> {
    let mut text = String::from_str(alloc, before)?;
    for _ in 0..count {
        text.push_str(middle)?;
    }
    text.push_str(after)?;
    Ok(text)
}

/// How a run ended, and whether its text is as it should be.
pub type Ended = Result<(Status, bool), AllocError>;

/// Checks how a run ended, and that its text was as it should be.
pub fn agrees(rt: &impl Abort, ended: Ended, status: Status, words: &str, text: &str) {
    assert!(rt; ended == Ok((status, true)), "{words}: {text}");
}

/// How the run over a source ends, and whether this is all that it writes.
pub fn writes(alloc: Global, words: &str, pieces: Pieces, text: &str) -> Ended {
    let source = joined(alloc, pieces)?;
    written(alloc, words, source.as_bytes(), SOUND, text)
}

/// How the run over a source ends, and whether these lines stand in what it writes.
pub fn tells(alloc: Global, words: &str, pieces: Pieces, lines: &str) -> Ended {
    let source = joined(alloc, pieces)?;
    told(alloc, words, source.as_bytes(), lines)
}

/// Checks that the sources are refused by these whole texts.
pub fn are_refused(rt: &impl Abort, alloc: Global, sources: &[(Pieces, &str)]) {
    for (pieces, text) in sources {
        let ended = writes(alloc, BOXES, *pieces, text);
        agrees(rt, ended, Status::Refused, BOXES, text);
    }
}

/// Checks lines of reports whose assertions these words prove.
pub fn are_proved(rt: &impl Abort, alloc: Global, words: &str, sources: &[(Pieces, &str)]) {
    for (pieces, lines) in sources {
        let ended = tells(alloc, words, *pieces, lines);
        agrees(rt, ended, Status::Proved, words, lines);
    }
}
