//! Reports over sets of parts.

use crate::checks::{Line, have_lines};
use lra_commands::Status;

/// A gap between two values.
const GAP: &str = "int main(void){ long x; if(input()) x=0; else x=5; assert(x!=3); }";

/// One value more than two parts hold.
const THREE: &str =
    "int main(void){ long x; if(input()) x=0; else if(input()) x=5; else x=9; assert(x!=3); }";

/// The two sides of a line.
const SIDES: &str = "int main(void){ long x, y; if(x!=y) ; }";

/// A loop whose values lie apart.
const APART: &str =
    "int main(void){ long x=0; while(input()){ if(input()) x=0; else x=5; } assert(x!=3); }";

/// The words for two parts over boxes.
const TWO_BOXES: &str = "lra analyse --domain box --parts 2";

/// Lines of reports over sets of parts, and of one part beside.
static LINES: [Line; 11] = [
    // widened to one part, which narrowing parts again
    (
        "lra analyse --domain box --parts 2 --delay 0",
        APART,
        Status::Proved,
        "point 2 main 1:27\n  row x = 0\n  or\n  row x = 5\npoint 3 main 1:43\n",
    ),
    (
        "lra analyse --domain box --parts 2 --delay 0 --narrow 0",
        APART,
        Status::Unknown,
        "point 2 main 1:27\n  row x >= 0\npoint 3 main 1:43\n  row x >= 0\n",
    ),
    (
        TWO_BOXES,
        GAP,
        Status::Proved,
        "point 5 main 1:52\n  row x = 0\n  or\n  row x = 5\npoint 6 main 1:66\n",
    ),
    (
        TWO_BOXES,
        GAP,
        Status::Proved,
        "analysis box parts 2 delay 1 narrow 1 limited no\nflagged 0\npoint 1 main 1:22\n",
    ),
    (
        TWO_BOXES,
        GAP,
        Status::Proved,
        "assert 5 main 1:52 proved\nverdicts proved 1 unknown 0\n",
    ),
    (
        "lra analyse --domain box",
        GAP,
        Status::Unknown,
        "point 5 main 1:52\n  row x >= 0\n  row x <= 5\npoint 6 main 1:66\n",
    ),
    (
        "lra analyse --domain oct --parts 16",
        GAP,
        Status::Proved,
        "point 5 main 1:52\n  row x = 0\n  or\n  row x = 5\npoint 6 main 1:66\n",
    ),
    (
        "lra analyse --parts 2",
        GAP,
        Status::Proved,
        "point 5 main 1:52\n  row x = 0\n  gen point x=0\n  or\n  row x = 5\n  gen point x=5\n\
            point 6 main 1:66\n",
    ),
    // the last two parts become one
    (
        TWO_BOXES,
        THREE,
        Status::Proved,
        "point 7 main 1:74\n  row x = 0\n  or\n  row x >= 5\n  row x <= 9\npoint 8 main 1:88\n",
    ),
    // generators of each part, and of the only one
    (
        "lra analyse --parts 2",
        SIDES,
        Status::Proved,
        "point 4 main 1:37\n  row x - y <= -1\n  gen point x=0 y=1\n  gen ray x=0 y=1\n  gen line x=1 y=1\n\
            \x20 or\n  row x - y >= 1\n  gen point x=0 y=-1\n  gen ray x=0 y=-1\n  gen line x=1 y=1\n\
            point 5 main 1:39\n  row x - y <= -1\n  gen point x=0 y=1\n  gen ray x=0 y=1\n\
            \x20 gen line x=1 y=1\n  or\n  row x - y >= 0\n  gen point x=0 y=0\n  gen ray x=0 y=-1\n\
            \x20 gen line x=1 y=1\nverdicts proved 0 unknown 0\n",
    ),
    (
        "lra analyse",
        SIDES,
        Status::Proved,
        "point 4 main 1:37\n  row true\n  gen point x=0 y=0\n  gen line x=1 y=0\n  gen line x=0 y=1\n\
            point 5 main 1:39\n  row true\n  gen point x=0 y=0\n  gen line x=1 y=0\n  gen line x=0 y=1\n",
    ),
];

#[test]
fn sets_of_parts_have_lines(rt: HostRuntime) {
    have_lines(&rt, rt.alloc(), &LINES);
}
