//! Calls in calls, which would double without end.

use crate::pieces::{Ended, agrees};
use lra_tests_runs::Status;
use lra_tests_runs::memory::{BOXES, told};
use std::alloc::{AllocError, Global};
use std::fmt::Write;

/// How many functions stand over `a0`, how often each calls the next lower one, the status, and a part of the text.
static CALLS: [(usize, usize, Status, &str); 4] = [
    (31, 1, Status::Proved, "\npoint 65 main 33:24\n"),
    (32, 1, Status::Refused, "refused 13 TooManyPoints at 2:16\n"),
    (3, 2, Status::Proved, "\npoint 31 main 5:23\n"),
    (30, 2, Status::Refused, "refused 13 TooManyPoints at 2:16\n"),
];

/// Adds a function that calls another one so many times.
fn push_caller(
    text: &mut String,
    own: usize,
    called: usize,
    times: usize,
) -> Result<(), AllocError> {
    write!(text, "void a{own}(void){{")?;
    for _ in 0..times {
        write!(text, " a{called}();")?;
    }
    text.push_str(" }\n")
}

/// Adds so many functions over `a0`, each of which calls the next lower one so often, and a `main` that calls the last.
fn push_calls(text: &mut String, last: usize, times: usize) -> Result<(), AllocError> {
    text.push_str("void a0(void){}\n")?;
    for called in 0..last {
        push_caller(text, called + 1, called, times)?;
    }
    write!(text, "int main(void){{ a{last}(); }}")
}

/// How the run over them ends, and whether this stands in what it writes.
fn calls_tell(alloc: Global, last: usize, times: usize, part: &str) -> Ended {
    let mut source = String::new(alloc);
    push_calls(&mut source, last, times)?;
    told(alloc, BOXES, source.as_bytes(), part)
}

#[test]
fn calls_in_calls_have_limits(rt: HostRuntime) {
    for (last, times, status, part) in CALLS.iter() {
        let ended = calls_tell(rt.alloc(), *last, *times, part);
        agrees(&rt, ended, *status, BOXES, part);
    }
}
