//! Tables of runs, each row as it should be.

use crate::memory::{BOXES, SOUND, told, written};
use lra_commands::Status;
use std::alloc::{AllocError, Global};
use std::process::Abort;

/// Words, a source, the read and the write that are to fail, the status, and the whole text that is written.
pub type Answer = (&'static str, &'static str, (u64, u64), Status, &'static str);

/// Words, a source, the status, and lines of its report.
pub type Line = (&'static str, &'static str, Status, &'static str);

/// How a run ended, and whether its text is as it should be.
pub type Ended = Result<(Status, bool), AllocError>;

/// Checks how a run ended, and that its text was as it should be.
pub fn agrees(rt: &impl Abort, ended: Ended, status: Status, words: &str, text: &str) {
    assert!(rt; ended == Ok((status, true)), "{words}: {text}");
}

/// Checks whole texts.
pub fn are_answers(rt: &impl Abort, alloc: Global, answers: &[Answer]) {
    for (words, source, fails, status, text) in answers {
        let ended = written(alloc, words, source.as_bytes(), *fails, text);
        agrees(rt, ended, *status, words, text);
    }
}

/// Checks that the sources are refused by these whole texts.
pub fn are_refused(rt: &impl Abort, alloc: Global, sources: &[(&str, &str)]) {
    for (source, text) in sources {
        let ended = written(alloc, BOXES, source.as_bytes(), SOUND, text);
        agrees(rt, ended, Status::Refused, BOXES, text);
    }
}

/// Checks lines of reports.
pub fn have_lines(rt: &impl Abort, alloc: Global, lines: &[Line]) {
    for (words, source, status, text) in lines {
        let ended = told(alloc, words, source.as_bytes(), text);
        agrees(rt, ended, *status, words, text);
    }
}

/// Checks lines of reports whose assertions these words prove.
pub fn are_proved(rt: &impl Abort, alloc: Global, words: &str, lines: &[(&str, &str)]) {
    for (source, text) in lines {
        let ended = told(alloc, words, source.as_bytes(), text);
        agrees(rt, ended, Status::Proved, words, text);
    }
}
