//! Runs over programs with `int`s: what is reported about their values, and sources that are refused for a type or a
//! number.

use crate::checks::{Answer, Line, are_answers, are_proved, are_refused, have_lines};
use crate::memory::{BOXES, SOUND};
use lra_commands::Status;

/// A loop that counts to ten.
pub const COUNTING: &str = "int main(void){ int i=0; while(i<10) i=i+1; }";

/// A number that is read, and the one above it.
pub const READ: &str = "int main(void){ int x=input(); x=x+1; }";

/// What is reported about it after the number read.
const ABOVE: &str = "point 2 main 1:32\n  row x >= -2147483648\n  row x <= 2147483647\n";

/// A head whose upper bound is forgotten, since the body may leave x as it is.
pub const WIDENED: &str =
    "int main(void){ int x=0; while(input()){ if(input()) { if(x<5) x=x+1; } else { if(x>0) x=x-1; } } \
    assert(x>=0); }";

/// The program of `WIDENED` with the upper bound assumed in the body.
pub const TOLD: &str =
    "int main(void){ int x=0; while(input()){ assume(x<=2147483647); if(input()) { if(x<5) x=x+1; } else { if(x>0) \
    x=x-1; } } assert(x>=0); }";

/// A result of 32 bits, given to a `long` and then to an `int`.
pub const RESULTS: &str =
    "int f(void){} int main(void){ long x=f(); assert(x<=2147483647); int y=f(); assert(y<=2147483647); }";

/// Sums, signs and products of both types.
pub const MIXED: &str = "int main(void){ int x; long y; x+=y; y+=x; x=x*1L; x=+x; return -y; }";

/// A sum and its opposite; a product of `long`s.
pub const OPPOSITE: &str = "int main(void){ int x; x=x+1; x=-x; long y=x; y=y*y; }";

/// Constants of both types.
pub const CONSTANTS: &str =
    "int main(void){ long a=65536*65536, b=65536L*65536; int c=-2147483648, d=0x80000000; }";

/// A call with an argument that is read.
pub const GIVEN: &str =
    "int f(int a, long b){ return a; } int main(void){ int x=f(input(), 7); f(x, x); }";

/// A call in the `return` of `main`, of a function that has a prototype.
pub const RETURNED: &str =
    "int f(int a, long b); int f(int a, long b){ return a; } int main(void){ return f(1, 2); }";

/// Lines over each domain.
static EACH_DOMAIN: [Line; 9] = [
    ("lra analyse", READ, Status::Proved, ABOVE),
    (BOXES, READ, Status::Proved, ABOVE),
    ("lra analyse --domain oct", READ, Status::Proved, ABOVE),
    (
        "lra analyse",
        COUNTING,
        Status::Proved,
        "point 2 main 1:26\n  row i >= 0\n  row i <= 10\n  gen point i=0\n  gen point i=10\npoint 3 main 1:38\n",
    ),
    (
        "lra analyse",
        COUNTING,
        Status::Proved,
        "point 4 main 1:45\n  row i = 10\n  gen point i=10\nverdicts proved 0 unknown 0\n",
    ),
    (
        "lra analyse",
        "int main(void){ int x; }",
        Status::Proved,
        "point 2 main 1:24\n  row x >= -2147483648\n  row x <= 2147483647\n  gen point x=-2147483648\n\
            \x20 gen point x=2147483647\nverdicts proved 0 unknown 0\n",
    ),
    (
        "lra analyse",
        WIDENED,
        Status::Proved,
        "point 3 main 1:42\n  row x >= 0\n  gen point x=0\n  gen ray x=1\npoint 4 main 1:56\n",
    ),
    (
        "lra analyse --domain oct",
        WIDENED,
        Status::Proved,
        "point 3 main 1:42\n  row x >= 0\npoint 4 main 1:56\n",
    ),
    (
        "lra analyse --domain oct",
        TOLD,
        Status::Proved,
        "point 4 main 1:65\n  row x >= 0\n  row x <= 2147483647\n",
    ),
];

/// Values of expressions, over boxes.
static VALUES: [(&str, &str); 9] = [
    (
        READ,
        "point 3 main 1:39\n  row x >= -2147483647\n  row x <= 2147483647\n",
    ),
    (
        OPPOSITE,
        "point 3 main 1:31\n  row x >= -2147483647\n  row x <= 2147483647\npoint 4 main 1:42\n  row x >= -2147483647\n\
            \x20 row x <= 2147483647\npoint 5 main 1:47\n",
    ),
    // a product of two `int`s is reported, though no run comes after it; an `int` isn't 2^31
    (CONSTANTS, "point 2 main 1:37\n  row a = 4294967296\n"),
    (
        CONSTANTS,
        "point 4 main 1:72\n  row a = 4294967296\n  row b = 4294967296\n  row c = -2147483648\n\
            point 5 main 1:86\n  unreachable\n",
    ),
    (
        "int main(void){ int x; if(x<2147483647 && x+1>0) x=x+1; if(x!=0 && 100/x>1) ; }",
        "point 3 main 1:50\n  row x >= 0\n  row x <= 2147483646\n",
    ),
    (
        MIXED,
        "point 4 main 1:38\n  row x >= -2147483648\n  row x <= 2147483647\npoint 5 main 1:44\n",
    ),
    (
        MIXED,
        "point 7 main 1:58\n  row x >= -2147483648\n  row x <= 2147483647\npoint 8 main 1:69\n  unreachable\n",
    ),
    (
        "int main(void){ int a, b; long c; c = a+b+c; c = c+(a+b); }",
        "point 4 main 1:35\n  row a >= -2147483648\n  row a <= 2147483647\n  row b >= -2147483648\n\
            \x20 row b <= 2147483647\npoint 5 main 1:46\n",
    ),
    (
        "int main(void){ if(0) { int x=input()*input(); } }",
        "point 2 main 1:29\n  unreachable\n",
    ),
];

/// Loops, over boxes.
static LOOPS: [(&str, &str); 7] = [
    (
        COUNTING,
        "point 2 main 1:26\n  row i >= 0\n  row i <= 10\npoint 3 main 1:38\n",
    ),
    (
        "int main(void){ int x=1; while(x<1000000) x=x+x; assert(x<=1999998); }",
        "assert 4 main 1:50 proved\n",
    ),
    // no `int` is above the greatest one
    (
        "int main(void){ int x=1; while(1) x=x+x; assert(x<=1999998); }",
        "point 2 main 1:26\n  row x >= 1\n  row x <= 2147483647\npoint 3 main 1:35\n  row x >= 1\n\
            \x20 row x <= 2147483647\npoint 4 main 1:42\n  unreachable\n",
    ),
    (
        "int main(void){ for(int i=0; i<3; i++) ; }",
        "point 1 main 1:17\n  row i >= 0\n  row i <= 3\npoint 2 main 1:25\n  row true\npoint 3 main 1:35\n\
            \x20 row i >= 0\n  row i <= 2\n",
    ),
    (
        "int main(void){ for(int i;i>=0;i--) assert(i<=2147483647); }",
        "verdicts proved 1 unknown 0\n",
    ),
    (
        WIDENED,
        "point 3 main 1:42\n  row x >= 0\npoint 4 main 1:56\n",
    ),
    (
        TOLD,
        "point 4 main 1:65\n  row x >= 0\n  row x <= 2147483647\n",
    ),
];

/// What is given to parameters, to targets of calls and to globals, over boxes.
static GIVING: [Line; 9] = [
    (
        BOXES,
        RESULTS,
        Status::Unknown,
        "assert 3 main 1:43 unknown\nassert 6 main 1:77 proved\nverdicts proved 1 unknown 1\n",
    ),
    (
        BOXES,
        GIVEN,
        Status::Proved,
        "point 2 main/f@1:57 1:23\n  row b = 7\n  row x >= -2147483648\n  row x <= 2147483647\n\
            \x20 row a >= -2147483648\n  row a <= 2147483647\n",
    ),
    (
        BOXES,
        "void f(int a){ assert(a<=2147483647); } int main(void){ f(input()); }",
        Status::Proved,
        "verdicts proved 1 unknown 0\n",
    ),
    (
        BOXES,
        "long f(void){ return input(); } int main(void){ int x; x=f(); assert(x>=-2147483648); }",
        Status::Proved,
        "verdicts proved 1 unknown 0\n",
    ),
    (
        BOXES,
        "int g=5; void set(void){ g=input(); } int main(void){ set(); assert(g<=2147483647); }",
        Status::Proved,
        "verdicts proved 1 unknown 0\n",
    ),
    (
        BOXES,
        "long f(long a){ return a; } int main(void){ long x=f(input()); assert(x<=2147483647); }",
        Status::Unknown,
        "verdicts proved 0 unknown 1\n",
    ),
    (
        BOXES,
        RETURNED,
        Status::Proved,
        "point 2 main/f@1:80 1:45\n  row a = 1\n  row b = 2\npoint 3 main/f@1:80 1:55\n  unreachable\n\
            point 4 main 1:89\n  unreachable\nverdicts proved 0 unknown 0\n",
    ),
    (
        BOXES,
        "int f(void){} int main(void){}",
        Status::Proved,
        "point 1 main 1:30\n  row true\nverdicts proved 0 unknown 0\n",
    ),
    (
        BOXES,
        "int g=-2147483648; int main(void){}",
        Status::Proved,
        "point 1 main 1:35\n  row g = -2147483648\nverdicts proved 0 unknown 0\n",
    ),
];

/// A whole report as JSON.
static JSON: [Answer; 1] = [(
    "lra analyse --domain box --json",
    "int main(void){ int x=1; x=x+1; x=x/x; }",
    SOUND,
    Status::Proved,
    "{\"analysis\":{\"delay\":1,\"domain\":\"box\",\"limited\":false,\"narrow\":1,\"parts\":1},\"asserts\":[],\
        \"flagged\":0,\"points\":[{\"number\":1,\"parts\":[{\"rows\":[]}],\"path\":\"main\",\"place\":\"1:21\"},\
        {\"number\":2,\"parts\":[{\"rows\":[\"x = 1\"]}],\"path\":\"main\",\"place\":\"1:26\"},\
        {\"number\":3,\"parts\":[{\"rows\":[\"x = 2\"]}],\"path\":\"main\",\"place\":\"1:33\"},\
        {\"number\":4,\"parts\":[{\"rows\":[\"x >= -2147483648\",\"x <= 2147483647\"]}],\"path\":\"main\",\
        \"place\":\"1:40\"}],\"proved\":0,\"unknown\":0}\n",
)];

/// First values that their types don't have, and words that are no type.
static REFUSED: [(&str, &str); 16] = [
    (
        "int g=2147483648; int main(void){}",
        "refused 3 BadLiteral at 1:7\n",
    ),
    (
        "int g=-2147483649; int main(void){}",
        "refused 3 BadLiteral at 1:8\n",
    ),
    (
        "int g=5, h=2147483648L; int main(void){}",
        "refused 3 BadLiteral at 1:12\n",
    ),
    // each number with its own sign; of a number past 2^63 - 1 no sign makes a literal
    (
        "int g=-2147483648, h=-2147483649; int main(void){}",
        "refused 3 BadLiteral at 1:23\n",
    ),
    (
        "long g=-9223372036854775808; int main(void){}",
        "refused 3 BadLiteral at 1:9\n",
    ),
    (
        "int g=0x80000000; int main(void){}",
        "refused 3 BadLiteral at 1:7\n",
    ),
    (
        "int main(void){ int x=1u; }",
        "refused 3 BadLiteral at 1:23\n",
    ),
    (
        "int main(void){ unsigned x; }",
        "refused 4 Syntax at 1:17\n",
    ),
    // of two faults the first in the text; a fault of the tokens comes before one of the names
    (
        "int g, g=2147483648; int main(void){}",
        "refused 8 DuplicateName at 1:8\n",
    ),
    (
        "int g=2147483648; int main(void){ $ }",
        "refused 2 BadByte at 1:35\n",
    ),
    (
        "int main(void){ int long x; }",
        "refused 4 Syntax at 1:21\n",
    ),
    (
        "int main(void){ long int int x; }",
        "refused 4 Syntax at 1:26\n",
    ),
    (
        "int f(int long a){} int main(void){}",
        "refused 4 Syntax at 1:11\n",
    ),
    (
        "long x, int y; int main(void){}",
        "refused 4 Syntax at 1:9\n",
    ),
    ("int int main(void){}", "refused 4 Syntax at 1:5\n"),
    (
        "int main(void){ int x; long x; }",
        "refused 8 DuplicateName at 1:29\n",
    ),
];

#[test]
fn values_of_ints(rt: HostRuntime) {
    have_lines(&rt, rt.alloc(), &EACH_DOMAIN);
    are_proved(&rt, rt.alloc(), BOXES, &VALUES);
    are_proved(&rt, rt.alloc(), BOXES, &LOOPS);
    have_lines(&rt, rt.alloc(), &GIVING);
    are_answers(&rt, rt.alloc(), &JSON);
}

#[test]
fn ints_that_are_refused(rt: HostRuntime) {
    are_refused(&rt, rt.alloc(), &REFUSED);
}
