//! Runs over programs that divide by constants: what quotients and remainders are reported to be.

use crate::checks::{Line, have_lines};
use crate::memory::BOXES;
use lra_commands::Status;

/// Half of a number from 0 to 7.
const HALF: &str = "int main(void){ long x=input(), q; assume(x>=0&&x<=7); q=x/2; }";

/// A condition on a half.
const ASSUMED: &str =
    "int main(void){ long x=input(); assume(x>=0&&x<=9); assume(x/2==3); assert(x>=6&&x<=7); }";

/// The middle of two places.
const MIDDLE: &str =
    "int main(void){ long x=input(), y=input(), m; assume(0<=x && x<=y && y<=1000); m=(x+y)/2; assert(x<=m && m<=y); }";

/// Tens and ones: what the tens leave.
const DIGITS: &str =
    "int main(void){ long x=input(), t, o; assume(x>=0&&x<=99); t=x/10; o=x-10*t; assert(t>=0&&t<=9); \
    assert(o>=0&&o<=9); assert(10*t+o==x); }";

/// The ones by a division of their own, which doesn't know of the tens.
const APART: &str =
    "int main(void){ long x=input(), t, o; assume(x>=0&&x<=99); t=x/10; o=x%10; assert(t>=0&&t<=9); \
    assert(o>=0&&o<=9); assert(10*t<=x); assert(10*t+o==x); }";

/// `!=` of a quotient, two divisions in one comparison, and a remainder on the right side.
const SEVENTHS: &str =
    "int main(void){ long x=input(); assume(x>=0 && x<=100); if(x/7!=3) ; else assert(x>=21 && x<=27); if(x%7==x/7) ; \
    if(7>x%8) ; }";

/// The middle of two places as one expression: what is added to isn't a form, and its quotient isn't known.
const WHOLE: &str =
    "int main(void){ long from=input(), to=input(); assume(0<=from && from<=to && to<=2147483647); \
    int low=from, high=to; int middle=low+(high-low)/2; assert(low<=middle && middle<=high); }";

/// What a `return` gives, and an argument.
const CALLS: &str =
    "long half(long x){ return x/2; } int main(void){ long n=input(), h, m; assume(n>=0); h=half(n); m=half(n/3); \
    assert(2*h<=n); assert(2*h>=n-1); assert(6*m<=n); }";

/// Numbers on both sides of 0.
const BOTH: &str = "int main(void){ long x=input(), q, r; assume(x>=-7&&x<=7); q=x/2; r=x%2; }";

/// An `int` that gets its own half.
const INTS: &str = "int main(void){ int x; x=x/2; if(x%2) ; }";

/// Constants divided, the last by a constant below 0, which is no division with rows.
const CONSTANTS: &str =
    "int main(void){ long x=7/2; assert(x==3); x=-7/2; assert(x==-3); x=-7%2; assert(x==-1); x=7/-2; assert(x==-3); }";

/// Lines over polyhedra.
static POLYHEDRA: [Line; 10] = [
    (
        "lra analyse",
        HALF,
        Status::Proved,
        "point 5 main 1:63\n  row x >= 0\n  row x - 2*q >= 0\n  row x - 2*q <= 1\n  row x <= 7\n\
            \x20 gen point x=0 q=-1/2\n  gen point x=0 q=0\n  gen point x=7 q=3\n  gen point x=7 q=7/2\n",
    ),
    (
        "lra analyse",
        ASSUMED,
        Status::Proved,
        "verdicts proved 1 unknown 0\n",
    ),
    (
        "lra analyse",
        MIDDLE,
        Status::Proved,
        "assert 6 main 1:91 proved\n",
    ),
    (
        "lra analyse",
        DIGITS,
        Status::Proved,
        "assert 7 main 1:78 proved\nassert 8 main 1:98 proved\nassert 9 main 1:118 proved\n",
    ),
    (
        "lra analyse",
        APART,
        Status::Unknown,
        "assert 7 main 1:76 proved\nassert 8 main 1:96 proved\nassert 9 main 1:116 proved\n\
            assert 10 main 1:133 unknown\n",
    ),
    (
        "lra analyse",
        SEVENTHS,
        Status::Proved,
        "point 5 main 1:75\n  row x >= 21\n  row x <= 27\n",
    ),
    (
        "lra analyse",
        SEVENTHS,
        Status::Proved,
        "point 7 main 1:112\n  row x >= 0\n  row x <= 100\n",
    ),
    (
        "lra analyse",
        SEVENTHS,
        Status::Proved,
        "point 9 main 1:124\n  row x >= 0\n  row x <= 100\n",
    ),
    (
        "lra analyse --fits",
        WHOLE,
        Status::Unknown,
        "assert 7 main 1:147 unknown\nfit 4 main 1:99 fits\nfit 5 main 1:109 fits\nfit 6 main 1:122 may overflow\n",
    ),
    (
        "lra analyse",
        CALLS,
        Status::Proved,
        "assert 11 main 1:110 proved\nassert 12 main 1:126 proved\nassert 13 main 1:144 proved\n",
    ),
];

/// Lines over boxes, and over sets of two of them.
static OVER_BOXES: [Line; 6] = [
    (
        BOXES,
        HALF,
        Status::Proved,
        "point 5 main 1:63\n  row x >= 0\n  row x <= 7\n  row q >= 0\n  row q <= 3\n",
    ),
    (
        BOXES,
        BOTH,
        Status::Proved,
        "point 7 main 1:74\n  row x >= -7\n  row x <= 7\n  row q >= -3\n  row q <= 3\n  row r >= -1\n  row r <= 1\n",
    ),
    (
        "lra analyse --domain box --parts 2",
        BOTH,
        Status::Proved,
        "point 7 main 1:74\n  row x >= 0\n  row x <= 7\n  row q >= 0\n  row q <= 3\n  row r >= 0\n  row r <= 1\n  or\n\
            \x20 row x >= -7\n  row x <= -1\n  row q >= -3\n  row q <= 0\n  row r >= -1\n  row r <= 0\n",
    ),
    (
        BOXES,
        INTS,
        Status::Proved,
        "point 3 main 1:31\n  row x >= -1073741824\n  row x <= 1073741823\npoint 4 main 1:39\n\
            \x20 row x >= -1073741824\n  row x <= 1073741823\npoint 5 main 1:41\n  row x >= -1073741824\n\
            \x20 row x <= 1073741823\n",
    ),
    (
        "lra analyse --domain box --fits",
        INTS,
        Status::Proved,
        "fit 2 main 1:24 fits\nfit 3 main 1:31 fits\nverdicts proved 0 unknown 0\n",
    ),
    (
        BOXES,
        CONSTANTS,
        Status::Unknown,
        "assert 2 main 1:29 proved\nassert 4 main 1:51 proved\nassert 6 main 1:74 unknown\n\
            assert 8 main 1:97 unknown\n",
    ),
];

#[test]
fn divisions_by_constants(rt: HostRuntime) {
    have_lines(&rt, rt.alloc(), &POLYHEDRA);
    have_lines(&rt, rt.alloc(), &OVER_BOXES);
}
