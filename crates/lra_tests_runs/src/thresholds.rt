//! Reports whose loops are limited by thresholds.

use crate::checks::{Answer, Line, are_answers, have_lines};
use crate::memory::SOUND;
use lra_commands::Status;

/// A counter that wraps, in an endless loop.
const WRAPPED: &str =
    "int main(void){ long i=0; while(1){ if(input()){ i=i+1; if(i>=60) i=0; } } }";

/// A counter that wraps if it is exactly so much.
const EXACT: &str =
    "int main(void){ long x=0; while(input()){ x=x+1; if(x==100) x=0; } assert(x<=99); }";

/// A counter that stays.
const BOUNDED: &str = "int main(void){ long i=0; while(input()) if(i<5) i=i+1; assert(i<=5); }";

/// A bound that no literal has.
const SUMMED: &str =
    "int main(void){ long i=0; while(input()) if(i<30+30) i=i+1; assert(i<=30+30); }";

/// A bound that no literal has, of a global that a function counts up.
const CALLED: &str =
    "long n=0; void step(void){ if(n<30+30) n=n+1; } int main(void){ while(input()) step(); assert(n<=30+30); }";

/// Literals up to the ends of 64 bits.
const ENDS: &str =
    "int main(void){ long x=9223372036854775807; while(input()) if(x>-9223372036854775807) x=x-1; \
assert(x<=9223372036854775807); }";

/// Polyhedra of one part.
const ONE: &str = "lra analyse --thresholds";

/// Polyhedra of up to four parts.
const BEST: &str = "lra analyse --best";

/// Whole reports.
static REPORTS: [Answer; 3] = [
    (
        ONE,
        "int main(void){}",
        SOUND,
        Status::Proved,
        "analysis poly parts 1 delay 1 narrow 1 limited no thresholds yes\nflagged 0\npoint 1 main 1:16\n\
            \x20 row true\n  gen point\nverdicts proved 0 unknown 0\n",
    ),
    (
        BEST,
        "int main(void){}",
        SOUND,
        Status::Proved,
        "analysis poly parts 4 delay 1 narrow 1 limited no thresholds yes\nflagged 0\npoint 1 main 1:16\n\
            \x20 row true\n  gen point\nverdicts proved 0 unknown 0\n",
    ),
    (
        "lra analyse --json --best",
        "int main(void){}",
        SOUND,
        Status::Proved,
        "{\"analysis\":{\"delay\":1,\"domain\":\"poly\",\"limited\":false,\"narrow\":1,\"parts\":4,\
            \"thresholds\":true},\"asserts\":[],\"flagged\":0,\"points\":[{\"number\":1,\"parts\":[{\"generators\":\
            [\"point\"],\"rows\":[]}],\"path\":\"main\",\"place\":\"1:16\"}],\"proved\":0,\"unknown\":0}\n",
    ),
];

/// One part.
static ONE_PART: [Line; 11] = [
    (
        ONE,
        WRAPPED,
        Status::Proved,
        "point 2 main 1:27\n  row i >= 0\n  row i <= 59\n  gen point i=0\n  gen point i=59\n\
            point 3 main 1:37\n  row i >= 0\n  row i <= 59\n  gen point i=0\n  gen point i=59\n\
            point 4 main 1:50\n  row i >= 0\n  row i <= 59\n  gen point i=0\n  gen point i=59\n",
    ),
    (
        ONE,
        WRAPPED,
        Status::Proved,
        "point 5 main 1:57\n  row i >= 1\n  row i <= 60\n  gen point i=1\n  gen point i=60\n\
            point 6 main 1:67\n  row i = 60\n  gen point i=60\n\
            point 7 main 1:72\n  row i >= 0\n  row i <= 59\n  gen point i=0\n  gen point i=59\n\
            point 8 main 1:74\n  row i >= 0\n  row i <= 59\n  gen point i=0\n  gen point i=59\n\
            point 9 main 1:76\n  unreachable\n",
    ),
    (
        ONE,
        EXACT,
        Status::Proved,
        "point 2 main 1:27\n  row x >= 0\n  row x <= 99\n  gen point x=0\n  gen point x=99\npoint 3 main 1:43\n",
    ),
    (
        ONE,
        EXACT,
        Status::Proved,
        "point 5 main 1:61\n  row x = 100\n  gen point x=100\npoint 6 main 1:66\n",
    ),
    (
        ONE,
        EXACT,
        Status::Proved,
        "assert 7 main 1:68 proved\nverdicts proved 1 unknown 0\n",
    ),
    (
        ONE,
        BOUNDED,
        Status::Proved,
        "point 2 main 1:27\n  row i >= 0\n  row i <= 5\n  gen point i=0\n  gen point i=5\n\
            point 3 main 1:42\n  row i >= 0\n  row i <= 5\n  gen point i=0\n  gen point i=5\n\
            point 4 main 1:50\n  row i >= 0\n  row i <= 4\n  gen point i=0\n  gen point i=4\n\
            point 5 main 1:57\n  row i >= 0\n  row i <= 5\n  gen point i=0\n  gen point i=5\n",
    ),
    // 60 is no literal: the rows around the condition in the loop
    (
        ONE,
        SUMMED,
        Status::Proved,
        "point 2 main 1:27\n  row i >= 0\n  row i <= 60\n  gen point i=0\n  gen point i=60\npoint 3 main 1:42\n",
    ),
    (
        "lra analyse --limited",
        SUMMED,
        Status::Unknown,
        "assert 5 main 1:61 unknown\nverdicts proved 0 unknown 1\n",
    ),
    // and in a call that is written out
    (
        ONE,
        CALLED,
        Status::Proved,
        "assert 6 main 1:88 proved\nverdicts proved 1 unknown 0\n",
    ),
    // nothing is flagged, and large numbers are no thresholds
    (ONE, ENDS, Status::Proved, "\nflagged 0\n"),
    (
        ONE,
        ENDS,
        Status::Proved,
        "point 2 main 1:45\n  row x <= 9223372036854775807\n  gen point x=9223372036854775807\n  gen ray x=-1\n",
    ),
];

/// Up to four parts.
static FOUR_PARTS: [Line; 9] = [
    // the tutorial's loop
    (
        BEST,
        "int main(void){ long x=0; while(input()) if(x<3) x=x+1; assert(x<=3); }",
        Status::Proved,
        "assert 5 main 1:57 proved\nverdicts proved 1 unknown 0\n",
    ),
    (
        BEST,
        WRAPPED,
        Status::Proved,
        "point 2 main 1:27\n  row i >= 0\n  row i <= 59\n  gen point i=0\n  gen point i=59\n\
            point 3 main 1:37\n  row i >= 0\n  row i <= 59\n  gen point i=0\n  gen point i=59\n\
            point 4 main 1:50\n  row i >= 0\n  row i <= 59\n  gen point i=0\n  gen point i=59\n",
    ),
    (
        BEST,
        WRAPPED,
        Status::Proved,
        "point 5 main 1:57\n  row i >= 1\n  row i <= 60\n  gen point i=1\n  gen point i=60\n\
            point 6 main 1:67\n  row i = 60\n  gen point i=60\n\
            point 7 main 1:72\n  row i = 0\n  gen point i=0\n  or\n  row i >= 1\n  row i <= 59\n  gen point i=1\n\
            \x20 gen point i=59\npoint 8 main 1:74\n  row i >= 0\n  row i <= 59\n  gen point i=0\n\
            \x20 gen point i=59\npoint 9 main 1:76\n  unreachable\n",
    ),
    (
        BEST,
        EXACT,
        Status::Proved,
        "point 2 main 1:27\n  row x = 0\n  gen point x=0\n  or\n  row x >= 1\n  row x <= 99\n  gen point x=1\n\
            \x20 gen point x=99\npoint 3 main 1:43\n",
    ),
    (
        BEST,
        EXACT,
        Status::Proved,
        "point 5 main 1:61\n  row x = 100\n  gen point x=100\npoint 6 main 1:66\n",
    ),
    (
        BEST,
        EXACT,
        Status::Proved,
        "assert 7 main 1:68 proved\nverdicts proved 1 unknown 0\n",
    ),
    (
        BEST,
        BOUNDED,
        Status::Proved,
        "point 2 main 1:27\n  row i = 0\n  gen point i=0\n  or\n  row i >= 1\n  row i <= 5\n  gen point i=1\n\
            \x20 gen point i=5\npoint 3 main 1:42\n  row i = 0\n  gen point i=0\n  or\n  row i >= 1\n  row i <= 5\n\
            \x20 gen point i=1\n  gen point i=5\n",
    ),
    (
        BEST,
        BOUNDED,
        Status::Proved,
        "point 4 main 1:50\n  row i = 0\n  gen point i=0\n  or\n  row i >= 1\n  row i <= 4\n  gen point i=1\n\
            \x20 gen point i=4\npoint 5 main 1:57\n  row i = 0\n  gen point i=0\n  or\n  row i >= 1\n  row i <= 5\n\
            \x20 gen point i=1\n  gen point i=5\n",
    ),
    (
        BEST,
        BOUNDED,
        Status::Proved,
        "assert 5 main 1:57 proved\nverdicts proved 1 unknown 0\n",
    ),
];

#[test]
fn thresholds_are_told(rt: HostRuntime) {
    are_answers(&rt, rt.alloc(), &REPORTS);
}

#[test]
fn thresholds_limit_one_part(rt: HostRuntime) {
    have_lines(&rt, rt.alloc(), &ONE_PART);
}

#[test]
fn thresholds_limit_four_parts(rt: HostRuntime) {
    have_lines(&rt, rt.alloc(), &FOUR_PARTS);
}
