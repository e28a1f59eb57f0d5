//! Doublings up to the end of the range and past it.

use crate::hulls::count_lines;
use crate::pieces::{Pieces, are_proved, joined};
use lra_tests_runs::Status;
use lra_tests_runs::memory::{BOXES, SOUND, ended};
use std::alloc::{AllocError, Global};

/// The greatest power of two that has 127 bits.
const WITHIN: Pieces = ("int main(void){ long x=1;", " x=x+x;", 126, " }");

/// One doubling more than `WITHIN` has.
const PAST: Pieces = ("int main(void){ long x=1;", " x=x+x;", 127, " }");

/// The doublings of `PAST` in a loop.
const LOOP_PAST: Pieces = (
    "int main(void){ long x=1; while(input()){",
    " x=x+x;",
    127,
    " } }",
);

/// Lines of reports over boxes.
static OVER_BOXES: [(Pieces, &str); 3] = [
    (WITHIN, "\nflagged 0\n"),
    (PAST, "\nflagged at point 128\n"),
    (PAST, "point 129 main 1:916\n  row true\n"),
];

/// Lines of reports over polyhedra.
static OVER_POLYHEDRA: [(Pieces, &str); 5] = [
    (WITHIN, "\nflagged 0\n"),
    (
        WITHIN,
        "point 128 main 1:909\n  row x = 85070591730234615865843651857942052864\n\
            \x20 gen point x=85070591730234615865843651857942052864\nverdicts proved 0 unknown 0\n",
    ),
    (PAST, "\nflagged at point 128\n"),
    (
        PAST,
        "point 129 main 1:916\n  row true\n  gen point x=0\n  gen line x=1\nverdicts proved 0 unknown 0\n",
    ),
    (LOOP_PAST, "\nflagged at point 129\n"),
];

/// A test that no store passes, after which the entries of an octagon would double six times a variable.
const EMPTY: Pieces = (
    "int main(void){ long v1=0,v2=0,v3=0,v4=0,v5=0,v6=0,v7=0,v8=0,v9=0,v10=0,v11=0,v12=0",
    "",
    0,
    ",v13=0,v14=0,v15=0,v16=0,v17=0,v18=0,v19=0,v20=0,v21=0,v22=0,v23=0,v24=0; if(v1<0) ; }",
);

/// Lines of reports over octagons.
static OVER_OCTAGONS: [(Pieces, &str); 2] = [
    (EMPTY, "\nflagged 0\n"),
    (EMPTY, "point 26 main 1:167\n  unreachable\n"),
];

#[test]
fn doublings(rt: HostRuntime) {
    are_proved(&rt, rt.alloc(), BOXES, &OVER_BOXES);
    are_proved(&rt, rt.alloc(), "lra analyse --domain oct", &OVER_OCTAGONS);
    are_proved(&rt, rt.alloc(), "lra analyse", &OVER_POLYHEDRA);
}

/// How many rows, true rows, origins, lines along `x` and generators a text reports.
fn counts_of(text: &str) -> [usize; 5] {
    [
        count_lines(text, "  row "),
        count_lines(text, "  row true"),
        count_lines(text, "  gen point x=0"),
        count_lines(text, "  gen line x=1"),
        count_lines(text, "  gen "),
    ]
}

/// How the run over the loop ends, and what its text reports.
fn loop_tells(alloc: Global) -> Result<(Status, [usize; 5]), AllocError> {
    let source = joined(alloc, LOOP_PAST)?;
    let (end, text) = ended(alloc, "lra analyse", source.as_bytes(), SOUND)?;
    Ok((end, counts_of(&text)))
}

/// A loop whose value is lost at its last doubling says nothing at any point, nor of `x` once it is declared.
#[test]
fn doublings_past_the_range_tell_nothing(rt: HostRuntime) {
    let told = (Status::Proved, [131, 131, 130, 130, 261]);
    assert!(rt; loop_tells(rt.alloc()) == Ok(told));
}
