//! Lines of reports over boxes, and over octagons.

use crate::checks::{Line, are_proved, have_lines};
use crate::memory::{BOXES, PROVED};
use lra_commands::Status;

/// A loop that counts to ten.
const COUNTING: &str = "int main(void){ long i=0; while(i<10) i=i+1; }";

/// A loop in a loop, which is left by `break` and by `return`.
const NESTED: &str =
    "int main(void){ long a=0, b=0; while(a<5){ b=0; while(1){ if(b>=3) break; if(input()) return 0; b=b+1; } \
    a=a+1; } assert(a==5); }";

/// Paths of calls, and names that those of callers hide.
const TWO_CALLS: &str =
    "long inc(long x){ x=x+1; return x; } int main(void){ long x=inc(1); x=inc(x); assert(x==3); }";

/// A function that changes a global variable, twice.
const COUNTED: &str = "long g=2; void f(void){ g=g+1; } int main(void){ f(); f(); assert(g==4); }";

/// A call in the step of a loop and one in a `return`.
const IN_STEP: &str =
    "long k(long d){ return d+1; } long h(long a){ for(long i=0;i<a;i=k(i)) ; return k(a); } int main(void){ long \
    m=h(2); }";

/// The words that leave narrowing out.
const UNNARROWED: &str = "lra analyse --domain box --narrow 0";

/// Words with options, and the line that reports them.
static WORDS: [Line; 4] = [
    (
        "lra analyse --domain=box",
        PROVED,
        Status::Proved,
        "analysis box parts 1 delay 1 narrow 1 limited no\nflagged 0\npoint 1 main 1:22\n",
    ),
    (
        "lra analyse --delay 0 --domain box",
        PROVED,
        Status::Proved,
        "analysis box parts 1 delay 0 narrow 1 limited no\n",
    ),
    (
        "lra analyse --domain box --narrow=4 --delay=8",
        PROVED,
        Status::Proved,
        "analysis box parts 1 delay 8 narrow 4 limited no\n",
    ),
    (
        "lra analyse --limited --domain box --parts 1 --",
        PROVED,
        Status::Proved,
        "analysis box parts 1 delay 1 narrow 1 limited yes\n",
    ),
];

/// Values of expressions and branches.
static VALUES: [(&str, &str); 9] = [
    (
        "int main(void){ long x; x = input()/0; x = 1; }",
        "point 3 main 1:40\n  row true\n",
    ),
    (
        "int main(void){ long x, y; if(x!=y) ; }",
        "point 4 main 1:37\n  row true\npoint 5 main 1:39\n  row true\n",
    ),
    (
        "int main(void){ long x=9223372036854775807; }",
        "point 2 main 1:45\n  row x = 9223372036854775807\n",
    ),
    (
        "int main(void){ long x=0777; }",
        "point 2 main 1:30\n  row x = 511\n",
    ),
    (
        "int main(void){ long x=3; if(x<1) if(x<2) x=4; else x=5; }",
        "point 3 main 1:35\n  unreachable\n",
    ),
    (
        "int main(void){ long x; x = 9 - 3 - 2; }",
        "point 3 main 1:40\n  row x = 4\n",
    ),
    (
        "int main(void){ long x; x = -2 * 3; }",
        "point 3 main 1:37\n  row x = -6\n",
    ),
    (
        "int main(void){ long x=5; { x -= 7; } x++; }",
        "point 5 main 1:44\n  row x = -1\n",
    ),
    (
        "//é\n#include <x>\n/* */int main(void){}",
        "point 1 main 3:21\n  row true\n",
    ),
];

/// What widening, narrowing and the exits of loops leave.
static LOOPS: [Line; 8] = [
    (
        BOXES,
        COUNTING,
        Status::Proved,
        "point 2 main 1:27\n  row i >= 0\n  row i <= 10\n",
    ),
    (
        BOXES,
        COUNTING,
        Status::Proved,
        "point 4 main 1:46\n  row i = 10\n",
    ),
    (
        UNNARROWED,
        COUNTING,
        Status::Proved,
        "point 2 main 1:27\n  row i >= 0\npoint 3 main 1:39\n",
    ),
    (
        UNNARROWED,
        COUNTING,
        Status::Proved,
        "point 4 main 1:46\n  row i >= 10\nverdicts proved 0 unknown 0\n",
    ),
    (
        "lra analyse --domain box --narrow 0 --limited",
        COUNTING,
        Status::Proved,
        "point 4 main 1:46\n  row i >= 10\n",
    ),
    (
        "lra analyse --domain box --narrow 0 --delay 3",
        "int main(void){ long i=0; while(i<3) i=i+1; assert(i==3); }",
        Status::Proved,
        "point 2 main 1:27\n  row i >= 0\n  row i <= 3\n",
    ),
    (
        BOXES,
        NESTED,
        Status::Proved,
        "point 9 main 1:87\n  row a >= 0\n  row a <= 4\n  row b >= 0\n  row b <= 2\n",
    ),
    (
        BOXES,
        NESTED,
        Status::Proved,
        "point 14 main 1:115\n  row a = 5\n  row b >= 0\n  row b <= 3\n",
    ),
];

/// Variables of inner blocks and of the head of a `for` end there; the nearest if has the else, through loops too; the
/// step follows `continue`; after a `return` nothing is reached.
static SCOPES: [(&str, &str); 8] = [
    (
        "int main(void){ long x=0; if(0) if(1) x=1; else x=2; assert(x==0); }",
        "assert 6 main 1:54 proved\n",
    ),
    (
        "int main(void){ long x=1; { long x=2; x=x+1; } assert(x==1); }",
        "point 3 main 1:39\n  row x~1 = 1\n  row x = 2\n",
    ),
    (
        "int main(void){ long s=0; for(long i=0;i<4;i++){ long s=i; if(s>1) break; } assert(s==0); }",
        "point 2 main 1:27\n  row s = 0\n  row i >= 0\n  row i <= 4\npoint 3 main 1:36\n  row s = 0\n",
    ),
    (
        "int main(void){ long s=0; for(long i=0;i<4;i++){ long s=i; if(s>1) break; } assert(s==0); }",
        "point 7 main 1:68\n  row s~1 = 0\n  row i >= 0\n  row i <= 3\n  row s >= 2\n  row s <= 3\n",
    ),
    (
        "int main(void){ long i, n=0; for(i=0; i<3; i++){ continue; n=1; } assert(i==3 && n==0); }",
        "point 5 main 1:44\n  row n = 0\n  row i >= 0\n  row i <= 2\n",
    ),
    (
        "int main(void){ long x=0; if(0) while(1) if(1) x=1; else x=2; assert(x==0); }",
        "point 7 main 1:63\n  row x = 0\n",
    ),
    (
        "int main(void){ long x=0; if(1) for(;;) if(x>4) break; else x=x+1; assert(x==5); }",
        "point 5 main 1:49\n  row x = 5\n",
    ),
    (
        "int main(void){ return 1; assert(0); }",
        "point 2 main 1:27\n  unreachable\n",
    ),
];

/// Globals and prototypes.
static GLOBALS: [(&str, &str); 7] = [
    (
        "long x; int main(void){}",
        "point 1 main 1:24\n  row x = 0\nverdicts proved 0 unknown 0\n",
    ),
    (
        "long g=-5; int main(void){ assert(g<0); }",
        "point 1 main 1:28\n  row g = -5\n",
    ),
    (
        "void f(void); int main(void){}",
        "point 1 main 1:30\n  row true\nverdicts proved 0 unknown 0\n",
    ),
    (COUNTED, "point 1 main 1:50\n  row g = 2\n"),
    (COUNTED, "point 3 main/f@1:50 1:32\n  row g = 3\n"),
    (COUNTED, "point 5 main/f@1:55 1:25\n  row g = 3\n"),
    (COUNTED, "point 7 main 1:60\n  row g = 4\n"),
];

/// Functions: paths of calls, names that callers' hide, results.
static CALLS: [(&str, &str); 10] = [
    (TWO_CALLS, "point 2 main/inc@1:61 1:19\n  row x = 1\n"),
    (TWO_CALLS, "point 4 main/inc@1:61 1:36\n  unreachable\n"),
    (
        TWO_CALLS,
        "point 6 main/inc@1:71 1:19\n  row x~1 = 2\n  row x = 2\n",
    ),
    (TWO_CALLS, "point 9 main 1:79\n  row x = 3\n"),
    (IN_STEP, "point 2 main/h@1:112 1:47\n"),
    (IN_STEP, "point 5 main/h@1:112/k@1:66 1:17\n"),
    (IN_STEP, "point 10 main/h@1:112/k@1:81 "),
    (IN_STEP, "point 12 main 1:118\n"),
    (
        "long f(long a, long b){ return a-b; } int main(void){ long x=f(5,3); assert(x==2); }",
        "point 4 main 1:70\n  row x = 2\n",
    ),
    (
        "long f(void){ while(1){ if(input()) return 7; } } int main(void){ long x; x=f(); assert(x==7); }",
        "main 1:82\n  row x = 7\n",
    ),
];

/// Lines over octagons: whole numbers are rounded, rows that the bounds imply aren't written, two rows make an
/// equality.
static ROUNDED: [(&str, &str); 4] = [
    (
        "int main(void){ long x; if(2*x==1) assert(0); }",
        "point 3 main 1:36\n  unreachable\npoint 4 main 1:47\n  row true\nassert 3 main 1:36 proved\n",
    ),
    (
        "int main(void){ long x, y; assume(x+y<=1 && x-y<=0); }",
        "point 4 main 1:54\n  row x - y <= 0\n  row x <= 0\n  row x + y <= 1\n",
    ),
    (
        "int main(void){ long x=input(), y=x+3, z=2; assert(y-x==3); }",
        "point 4 main 1:45\n  row x - y = -3\n  row z = 2\n",
    ),
    (
        "int main(void){ long a=0, b=0; while(input()){ if(input()) a=a+1; else if(b<a) b=b+1; } \
            assert(b<=a); }",
        "verdicts proved 1 unknown 0\n",
    ),
];

#[test]
fn lines_over_boxes(rt: HostRuntime) {
    have_lines(&rt, rt.alloc(), &WORDS);
    are_proved(&rt, rt.alloc(), BOXES, &VALUES);
    have_lines(&rt, rt.alloc(), &LOOPS);
    are_proved(&rt, rt.alloc(), BOXES, &SCOPES);
    are_proved(&rt, rt.alloc(), BOXES, &GLOBALS);
    are_proved(&rt, rt.alloc(), BOXES, &CALLS);
}

#[test]
fn lines_over_octagons(rt: HostRuntime) {
    are_proved(&rt, rt.alloc(), "lra analyse --domain oct", &ROUNDED);
}
