//! Reports over closed polyhedra, the default domain.

use crate::checks::{Answer, Line, are_answers, have_lines};
use crate::memory::{PROVED, SOUND};
use lra_commands::Status;

/// The program of Cousot and Halbwachs (1978).
const SLOPES: &str =
    "int main(void){ long i=2, j=0; while(input()) if(input()) i=i+4; else { j=j+1; i=i+2; } }";

/// An endless loop.
const ENDLESS: &str = "int main(void){ while(1){} assert(0); }";

/// A loop that counts to ten.
const COUNTING: &str = "int main(void){ long i=0; while(i<10) i=i+1; }";

/// A loop that doubles.
const DOUBLING: &str = "int main(void){ long x=1; while(input()) x=x+x; }";

const TWO_CALLS: &str =
    "long inc(long x){ x=x+1; return x; } int main(void){ long x=inc(1); x=inc(x); assert(x==3); }";

/// The words that ask for a report.
const ANALYSE: &str = "lra analyse";

/// Whole reports.
static REPORTS: [Answer; 3] = [
    (
        ANALYSE,
        "int main(void){}",
        SOUND,
        Status::Proved,
        "analysis poly parts 1 delay 1 narrow 1 limited no\nflagged 0\npoint 1 main 1:16\n  row true\n\
            \x20 gen point\nverdicts proved 0 unknown 0\n",
    ),
    (
        ANALYSE,
        ENDLESS,
        SOUND,
        Status::Proved,
        "analysis poly parts 1 delay 1 narrow 1 limited no\nflagged 0\npoint 1 main 1:17\n  row true\n\
            \x20 gen point\npoint 2 main 1:26\n  row true\n  gen point\npoint 3 main 1:28\n  unreachable\n\
            point 4 main 1:39\n  unreachable\nassert 3 main 1:28 proved\nverdicts proved 1 unknown 0\n",
    ),
    // the default domain, named
    (
        "lra analyse --domain poly",
        COUNTING,
        SOUND,
        Status::Proved,
        "analysis poly parts 1 delay 1 narrow 1 limited no\nflagged 0\npoint 1 main 1:22\n  row true\n\
            \x20 gen point\npoint 2 main 1:27\n  row i >= 0\n  row i <= 10\n  gen point i=0\n  gen point i=10\n\
            point 3 main 1:39\n  row i >= 0\n  row i <= 9\n  gen point i=0\n  gen point i=9\n\
            point 4 main 1:46\n  row i = 10\n  gen point i=10\nverdicts proved 0 unknown 0\n",
    ),
];

/// Loops.
static LOOPS: [Line; 8] = [
    (
        ANALYSE,
        SLOPES,
        Status::Proved,
        "point 3 main 1:32\n  row i - 2*j >= 2\n  row j >= 0\n  gen point i=2 j=0\n  gen ray i=1 j=0\n\
            \x20 gen ray i=2 j=1\npoint 4 main 1:47\n",
    ),
    (ANALYSE, SLOPES, Status::Proved, "\nflagged 0\n"),
    // no narrowing: the widened head
    (
        "lra analyse --narrow 0",
        COUNTING,
        Status::Proved,
        "point 2 main 1:27\n  row i >= 0\n  gen point i=0\n  gen ray i=1\npoint 3 main 1:39\n",
    ),
    (
        "lra analyse --narrow 0",
        COUNTING,
        Status::Proved,
        "point 4 main 1:46\n  row i >= 10\n  gen point i=10\n  gen ray i=1\nverdicts proved 0 unknown 0\n",
    ),
    // limited by the loop's condition
    (
        "lra analyse --narrow 0 --limited",
        COUNTING,
        Status::Proved,
        "analysis poly parts 1 delay 1 narrow 0 limited yes\nflagged 0\n",
    ),
    (
        "lra analyse --narrow 0 --limited",
        COUNTING,
        Status::Proved,
        "point 2 main 1:27\n  row i >= 0\n  row i <= 10\n  gen point i=0\n  gen point i=10\n\
            point 3 main 1:39\n  row i >= 0\n  row i <= 9\n  gen point i=0\n  gen point i=9\n\
            point 4 main 1:46\n  row i = 10\n  gen point i=10\n",
    ),
    // a loop that doubles, once and past the range in each turn
    (ANALYSE, DOUBLING, Status::Proved, "\nflagged 0\n"),
    (
        ANALYSE,
        DOUBLING,
        Status::Proved,
        "point 2 main 1:27\n  row x >= 1\n  gen point x=1\n  gen ray x=1\npoint 3 main 1:42\n",
    ),
];

/// States after assignments and tests.
static STATES: [Line; 6] = [
    // a point between whole numbers
    (
        ANALYSE,
        "int main(void){ long x; if(2*x==1) assert(0); }",
        Status::Unknown,
        "point 3 main 1:36\n  row 2*x = 1\n  gen point x=1/2\npoint 4 main 1:47\n  row true\n  gen point x=0\n\
            \x20 gen line x=1\nassert 3 main 1:36 unknown\nverdicts proved 0 unknown 1\n",
    ),
    // the two sides of `!=` joined in one part
    (
        ANALYSE,
        "int main(void){ long x, y; if(x!=y) ; }",
        Status::Proved,
        "point 4 main 1:37\n  row true\n  gen point x=0 y=0\n  gen line x=1 y=0\n  gen line x=0 y=1\n\
            point 5 main 1:39\n  row true\n  gen point x=0 y=0\n  gen line x=1 y=0\n  gen line x=0 y=1\n\
            verdicts proved 0 unknown 0\n",
    ),
    // a state that no run reaches, and the one after it
    (
        ANALYSE,
        "int main(void){ long x; x = input()/0; x = 1; }",
        Status::Proved,
        "point 3 main 1:40\n  row true\n  gen point x=0\n  gen line x=1\npoint 4 main 1:47\n  row x = 1\n\
            \x20 gen point x=1\n",
    ),
    // no row that the others imply between whole numbers alone
    (
        ANALYSE,
        "int main(void){ long x, y; assume(x+y<=1 && x-y<=0); }",
        Status::Proved,
        "point 4 main 1:54\n  row x - y <= 0\n  row x + y <= 1\n  gen point x=1/2 y=1/2\n  gen ray x=-1 y=-1\n\
            \x20 gen ray x=-1 y=1\nverdicts proved 0 unknown 0\n",
    ),
    // one part for two branches
    (
        "lra analyse --parts 1",
        "int main(void){ long x; if(input()) x=0; else x=5; assert(x!=3); }",
        Status::Unknown,
        "point 5 main 1:52\n  row x >= 0\n  row x <= 5\n  gen point x=0\n  gen point x=5\n",
    ),
    // a line of slope 2, which boxes and octagons lose
    (
        ANALYSE,
        "int main(void){ long x=input(), y; y=2*x+1; assert(y-2*x==1); }",
        Status::Proved,
        "point 4 main 1:45\n  row 2*x - y = -1\n  gen point x=0 y=1\n  gen line x=1 y=2\n",
    ),
];

/// Names that newer ones hide, functions and globals, the named domain, and a source that is refused.
static NAMED: [Line; 7] = [
    // names that newer ones hide
    (
        ANALYSE,
        "int main(void){ long x=input(); { long x=x; assert(x>=0); } }",
        Status::Unknown,
        "  row true\n  gen point x~1=0 x=0\n  gen line x~1=1 x=0\n  gen line x~1=0 x=1\n",
    ),
    // functions and globals
    (
        ANALYSE,
        "long g=2; void f(void){ g=g+1; } int main(void){ f(); f(); assert(g==4); }",
        Status::Proved,
        "point 7 main 1:60\n  row g = 4\n  gen point g=4\n",
    ),
    (
        ANALYSE,
        TWO_CALLS,
        Status::Proved,
        "point 6 main/inc@1:71 1:19\n  row x~1 = 2\n  row x = 2\n  gen point x~1=2 x=2\n",
    ),
    (
        ANALYSE,
        TWO_CALLS,
        Status::Proved,
        "point 4 main/inc@1:61 1:36\n  unreachable\n",
    ),
    (
        "lra analyse --domain poly --parts 1 --",
        PROVED,
        Status::Proved,
        "point 4 main 1:48\n  row x = 3\n  gen point x=3\nassert 3 main 1:32 proved\n",
    ),
    (
        ANALYSE,
        "long x; int main(void){}",
        Status::Proved,
        "point 1 main 1:24\n  row x = 0\n  gen point x=0\nverdicts proved 0 unknown 0\n",
    ),
    // a failed read, and sources that are refused, under any domain
    (
        ANALYSE,
        "int main(void){ /*",
        Status::Refused,
        "refused 4 Syntax at 1:17\n",
    ),
];

#[test]
fn reports(rt: HostRuntime) {
    are_answers(&rt, rt.alloc(), &REPORTS);
}

#[test]
fn lines_of_reports(rt: HostRuntime) {
    have_lines(&rt, rt.alloc(), &LOOPS);
    have_lines(&rt, rt.alloc(), &STATES);
    have_lines(&rt, rt.alloc(), &NAMED);
}
