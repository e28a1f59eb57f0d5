//! What `verify` answers: a certificate, and what becomes of changes of it.

use crate::checks::{Answer, Ended, agrees, are_answers};
use crate::memory::{SOUND, written};
use lra_commands::Status;
use std::alloc::Global;
use std::process::Abort;

const VERIFY: &str = "lra verify";

/// A certificate up to the lines that show the rows of its last point.
const FRONT: &str =
    "certificate bytes 48\nint main(void){ long x; x = 3; assert(x >= 3); }\npoint 1\n\
    point 2\npoint 3\n  = -3 1\npoint 4\n  = -3 1\nedge 0 1\nedge 1 2\nedge 2 3\nby 1 0\nby 1 0\nedge 3 4\n";

/// Lines after that, the status, and what is written.
type Row = (&'static str, Status, &'static str);

/// Multiples of the rows, and fewer lines.
static TAKEN: [Row; 3] = [
    (
        "by 1 0 1 0\nby 1 0 -1 0\nassert 3\ndead 1 0 1 1\nend\n",
        Status::Proved,
        "verified points 4 proved 1\n",
    ),
    (
        "by 2 0 2 0\nby 1 0 -1 0\nassert 3\ndead 1 0 1 1\nend\n",
        Status::Proved,
        "verified points 4 proved 1\n",
    ),
    (
        "by 1 0 1 0\nby 1 0 -1 0\nend\n",
        Status::Proved,
        "verified points 4 proved 0\n",
    ),
];

/// Lines that show nothing, haven't their form or pass the range, and lines too many or too few.
static REFUSED: [Row; 10] = [
    (
        "by 1 0 0 0\nby 1 0 -1 0\nassert 3\ndead 1 0 1 1\nend\n",
        Status::Refused,
        "refused line 13 NotRow\n",
    ),
    (
        "by 0 0 0 0\nby 1 0 -1 0\nassert 3\ndead 1 0 1 1\nend\n",
        Status::Refused,
        "refused line 13 NotRow\n",
    ),
    (
        "by 1 0 1 -0\nby 1 0 -1 0\nassert 3\ndead 1 0 1 1\nend\n",
        Status::Refused,
        "refused line 13 BadLine\n",
    ),
    (
        "by 170141183460469231731687303715884105727 0 170141183460469231731687303715884105727 0\n",
        Status::Refused,
        "refused line 13 Wide\n",
    ),
    (
        "by 1 0 1 0\nby 1 0 1 0\nassert 3\ndead 1 0 1 1\nend\n",
        Status::Refused,
        "refused line 14 NotRow\n",
    ),
    (
        "by 1 0 1 0\nby 1 0 -1 0\nassert 2\ndead 1 0 1 1\nend\n",
        Status::Refused,
        "refused line 15 BadLine\n",
    ),
    (
        "by 1 0 1 0\nby 1 0 -1 0\nassert 3\nby 1 0 1 1\nend\n",
        Status::Refused,
        "refused line 16 BadLine\n",
    ),
    (
        "by 1 0 1 0\nby 1 0 -1 0\nassert 3\ndead 1 0 1 1\nend",
        Status::Refused,
        "refused line 17 BadLine\n",
    ),
    (
        "by 1 0 1 0\nby 1 0 -1 0\nassert 3\ndead 1 0 1 1\nend\n\n",
        Status::Refused,
        "refused line 18 BadLine\n",
    ),
    ("", Status::Refused, "refused line 13 BadLine\n"),
];

/// Inputs that are no certificate, and one whose reading fails.
static OTHER: [Answer; 6] = [
    (
        VERIFY,
        "",
        SOUND,
        Status::Refused,
        "refused line 0 BadLine\n",
    ),
    (
        VERIFY,
        "certificate bytes 048\nint main(void){ long x; x = 3; assert(x >= 3); }\n",
        SOUND,
        Status::Refused,
        "refused line 0 BadLine\n",
    ),
    (
        VERIFY,
        "certificate bytes 48\nint main(void){ long x; x = 3; assert(x >= 3); }\n",
        SOUND,
        Status::Refused,
        "refused line 1 BadLine\n",
    ),
    (
        VERIFY,
        "certificate bytes 1\n$\nend\n",
        SOUND,
        Status::Refused,
        "refused 2 BadByte at 1:1\n",
    ),
    (
        VERIFY,
        "certificate bytes 0\n\nend\n",
        SOUND,
        Status::Refused,
        "refused 6 NoMain at 1:1\n",
    ),
    (VERIFY, FRONT, (2, 0), Status::ReadFault, ""),
];

/// How the certificate with these lines at its end is answered, and whether so.
fn verified(alloc: Global, lines: &str, text: &str) -> Ended {
    let mut input = String::from_str(alloc, FRONT)?;
    input.push_str(lines)?;
    written(alloc, VERIFY, input.as_bytes(), SOUND, text)
}

/// Checks rows.
fn are_verified(rt: &impl Abort, alloc: Global, rows: &[Row]) {
    for (lines, status, text) in rows {
        agrees(rt, verified(alloc, lines, text), *status, lines, text);
    }
}

#[test]
fn certificates_are_checked(rt: HostRuntime) {
    are_verified(&rt, rt.alloc(), &TAKEN);
    are_verified(&rt, rt.alloc(), &REFUSED);
    are_answers(&rt, rt.alloc(), &OTHER);
}
