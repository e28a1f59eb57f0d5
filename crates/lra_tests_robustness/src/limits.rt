//! The numbers of bytes, variables and points of a source, from both sides of their limits.

use crate::pieces::{Pieces, agrees, are_proved, are_refused, tells, writes};
use lra_tests_runs::Status;
use lra_tests_runs::memory::{BOXES, PROVED, SOUND, ended, written};
use std::alloc::{AllocError, Global};

/// One variable more than a point may have.
const MANY: Pieces = (
    "int main(void){ long v1,v2,v3,v4,v5,v6,v7,v8,v9,v10,v11,v12",
    "",
    0,
    ",v13,v14,v15,v16,v17,v18,v19,v20,v21,v22,v23,v24,v25,v26,v27,v28,v29,v30,v31,v32,v33;}",
);

/// Sources past a limit, or as long as it without a function, and the whole text that is written.
static PAST: [(Pieces, &str); 9] = [
    (("", " ", 65537, ""), "refused 1 TooLong at 1:65537\n"),
    (
        ("int main(void){}", " ", 65521, ""),
        "refused 1 TooLong at 1:65537\n",
    ),
    (("", "\n", 65535, "abc"), "refused 1 TooLong at 65536:2\n"),
    (("", " ", 65536, ""), "refused 6 NoMain at 1:65537\n"),
    (MANY, "refused 12 TooManyVariables at 1:145\n"),
    (
        ("int main(void){", ";", 2048, "}"),
        "refused 13 TooManyPoints at 1:2064\n",
    ),
    (("", "(", 65536, ""), "refused 4 Syntax at 1:1\n"),
    // in a function that is called: the parameter is one more, and `main` ends after the points of the call
    (
        (
            "void f(long p){}\nint main(void){ long v1,v2,v3,v4,v5,v6,v7,v8,v9,v10,v11,v12",
            "",
            0,
            ",v13,v14,v15,v16,v17,v18,v19,v20,v21,v22,v23,v24,v25,v26,v27,v28,v29,v30,v31,v32; f(1);}",
        ),
        "refused 12 TooManyVariables at 1:16\n",
    ),
    (
        ("void f(void){", ";", 2046, "} int main(void){ f(); }"),
        "refused 13 TooManyPoints at 1:2083\n",
    ),
];

/// Sources that just keep within a limit, and lines of their reports.
static WITHIN: [(Pieces, &str); 5] = [
    (
        ("int main(void){}", " ", 65520, ""),
        "point 1 main 1:16\n  row true\n",
    ),
    (
        (
            "int main(void){ long v1,v2,v3,v4,v5,v6,v7,v8,v9,v10,v11,v12",
            "",
            0,
            ",v13,v14,v15,v16,v17,v18,v19,v20,v21,v22,v23,v24,v25,v26,v27,v28,v29,v30,v31,v32;}",
        ),
        "point 33 main 1:141\n  row true\n",
    ),
    (
        ("int main(void){", ";", 2047, "}"),
        "point 2048 main 1:2063\n  row true\nverdicts proved 0 unknown 0\n",
    ),
    (
        (
            "void f(long p){}\nint main(void){ long v1,v2,v3,v4,v5,v6,v7,v8,v9,v10,v11,v12",
            "",
            0,
            ",v13,v14,v15,v16,v17,v18,v19,v20,v21,v22,v23,v24,v25,v26,v27,v28,v29,v30,v31; f(1);}",
        ),
        "point 33 main/f@2:138 1:16\n  row p = 1\n",
    ),
    (
        ("void f(void){", ";", 2045, "} int main(void){ f(); }"),
        "point 2048 main 1:2082\n  row true\nverdicts proved 0 unknown 0\n",
    ),
];

/// Scripts of skipped lines, one as long as the limit and longer ones, the status, and the whole text that is written.
static SCRIPTS: [(Pieces, Status, &str); 3] = [
    (("", "\n", 65536, ""), Status::Proved, "flagged 0\n"),
    (
        ("", "\n", 65537, ""),
        Status::Refused,
        "refused 1 TooLong at 65537:1\n",
    ),
    (
        ("", "\n", 65540, ""),
        Status::Refused,
        "refused 1 TooLong at 65537:1\n",
    ),
];

/// Over polyhedra many variables are refused too.
#[test]
fn sources_past_a_limit_are_refused(rt: HostRuntime) {
    are_refused(&rt, rt.alloc(), &PAST);
    let lines = "refused 12 TooManyVariables at 1:145\n";
    let ended = tells(rt.alloc(), "lra analyse", MANY, lines);
    agrees(&rt, ended, Status::Refused, "lra analyse", lines);
}

#[test]
fn sources_within_a_limit_are_analysed(rt: HostRuntime) {
    are_proved(&rt, rt.alloc(), BOXES, &WITHIN);
}

/// Whether a script of so many spaces writes this.
fn spaces_write(alloc: Global, count: usize, expected: &str) -> Result<bool, AllocError> {
    let script = vec![in alloc; b' '; count]?;
    let (_status, same) = written(alloc, "lra calc", &script, SOUND, expected)?;
    Ok(same)
}

#[test]
fn scripts_and_their_lines_have_a_longest(rt: HostRuntime) {
    for (pieces, status, text) in SCRIPTS.iter() {
        let ended = writes(rt.alloc(), "lra calc", *pieces, text);
        agrees(&rt, ended, *status, "lra calc", text);
    }
    let longest = spaces_write(rt.alloc(), 65_536, "flagged 0\n");
    let longer = spaces_write(rt.alloc(), 65_537, "refused 1 TooLong at 1:65537\n");
    assert!(rt; [longest, longer] == [Ok(true), Ok(true)]);
}

/// How a run over this prefix of a source ends, and whether it is refused in its line.
fn ends_in_front(alloc: Global, front: &[u8]) -> Result<(Status, bool), AllocError> {
    let (end, text) = ended(alloc, BOXES, front, SOUND)?;
    Ok((end, text.starts_with("refused 4 Syntax at 1:")))
}

#[test]
fn each_front_of_a_source_is_refused(rt: HostRuntime) {
    let source = PROVED.as_bytes();
    for count in 1..source.len() {
        let ended = ends_in_front(rt.alloc(), &source[..count]);
        assert!(rt; ended == Ok((Status::Refused, true)), "{count}");
    }
}
