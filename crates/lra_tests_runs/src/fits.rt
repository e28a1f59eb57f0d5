//! Which statements can overflow, as `--fits` reports it: after the last point's rows and the assertions all lines are
//! asked for, so that none is there for a point that computes nothing; rows that begin at a line ask for those from
//! there on.

use crate::checks::{Answer, Line, are_answers, are_proved, have_lines};
use crate::memory::SOUND;
use crate::types::{
    CONSTANTS, COUNTING, GIVEN, MIXED, OPPOSITE, READ, RESULTS, RETURNED, TOLD, WIDENED,
};
use lra_commands::Status;

/// The words that ask for it over boxes.
const FITS: &str = "lra analyse --domain box --fits";

/// Over octagons.
const OCTAGONS: &str = "lra analyse --domain oct --fits";

/// Results of a `long` divided by 2, given to an `int`, to a `long`, to no receiver, and to `main`'s type.
const HALVES: &str =
    "int half(long x){ return x/2; } int main(void){ long y=half(6); int z=half(y); half(z); return y; }";

/// Nodes of all kinds, in a function that is called twice and in `main`.
const NODES: &str =
    "long f(int a){ return a; } int main(void){ int y=2147483647; long x=y+1l; x=-x; y=7/2; y=7%-1; y=y+1; y=f(y); \
    if(y>5 && y-5>=0 || y+9<9) ; x=y/x; x=f(x); }";

/// A sum of two numbers of which one is 0.
const APART: &str =
    "int main(void){ int a=0, b=2147483647; if(input()) { a=2147483647; b=0; } a=a+b; }";

/// What is reported about a sum above the greatest number after an input.
const OVER: &str =
    "fit 1 main 1:21 may overflow\nfit 2 main 1:32 may overflow\nverdicts proved 0 unknown 0\n";

/// Where a widened head has forgotten the greatest number, and where it is reported again.
const FORGOTTEN: &str =
    "assert 11 main 1:99 proved\nfit 5 main 1:64 fits\nfit 8 main 1:88 may overflow\n\
    verdicts proved 1 unknown 0\n";

const REMEMBERED: &str =
    "assert 12 main 1:122 proved\nfit 6 main 1:87 fits\nfit 9 main 1:111 fits\n\
    verdicts proved 1 unknown 0\n";

/// Lines over each domain.
static EACH_DOMAIN: [Line; 15] = [
    (
        "lra analyse --fits",
        COUNTING,
        Status::Proved,
        "analysis poly parts 1 delay 1 narrow 1 limited no fits yes\nflagged 0\npoint 1 main 1:21\n",
    ),
    (
        "lra analyse --fits",
        COUNTING,
        Status::Proved,
        "point 2 main 1:26\n  row i >= 0\n  row i <= 10\n  gen point i=0\n  gen point i=10\npoint 3 main 1:38\n",
    ),
    (
        "lra analyse --fits",
        COUNTING,
        Status::Proved,
        "point 4 main 1:45\n  row i = 10\n  gen point i=10\nfit 3 main 1:38 fits\nverdicts proved 0 unknown 0\n",
    ),
    (
        "lra analyse --fits",
        READ,
        Status::Proved,
        "point 2 main 1:32\n  row x >= -2147483648\n  row x <= 2147483647\n  gen point x=-2147483648\n\
            \x20 gen point x=2147483647\npoint 3 main 1:39\n  row x >= -2147483647\n  row x <= 2147483647\n\
            \x20 gen point x=-2147483647\n  gen point x=2147483647\nfit 1 main 1:21 may overflow\n\
            fit 2 main 1:32 may overflow\nverdicts proved 0 unknown 0\n",
    ),
    (FITS, READ, Status::Proved, OVER),
    (OCTAGONS, READ, Status::Proved, OVER),
    // it stands beside `--best`
    (
        "lra analyse --best --fits",
        COUNTING,
        Status::Proved,
        "analysis poly parts 4 delay 1 narrow 1 limited no thresholds yes fits yes\nflagged 0\n",
    ),
    (
        "lra analyse --best --fits",
        COUNTING,
        Status::Proved,
        "fit 3 main 1:38 fits\nverdicts proved 0 unknown 0\n",
    ),
    ("lra analyse --fits", WIDENED, Status::Proved, FORGOTTEN),
    (OCTAGONS, WIDENED, Status::Proved, FORGOTTEN),
    ("lra analyse --fits", TOLD, Status::Proved, REMEMBERED),
    (OCTAGONS, TOLD, Status::Proved, REMEMBERED),
    // a relation; over boxes each part reports it
    (
        "lra analyse --fits",
        APART,
        Status::Proved,
        "\nfit 7 main 1:75 fits\nverdicts proved 0 unknown 0\n",
    ),
    (
        OCTAGONS,
        APART,
        Status::Proved,
        "\nfit 7 main 1:75 fits\nverdicts proved 0 unknown 0\n",
    ),
    (
        "lra analyse --domain box --parts 2 --fits",
        APART,
        Status::Proved,
        "\nfit 7 main 1:75 fits\nverdicts proved 0 unknown 0\n",
    ),
];

/// What expressions and conversions compute, over boxes.
static EXPRESSIONS: [(&str, &str); 12] = [
    (
        OPPOSITE,
        "point 6 main 1:54\n  row x >= -2147483647\n  row x <= 2147483647\nfit 2 main 1:24 may overflow\n\
            fit 3 main 1:31 fits\nfit 5 main 1:47 may overflow\nverdicts proved 0 unknown 0\n",
    ),
    (
        CONSTANTS,
        "point 5 main 1:86\n  unreachable\nfit 1 main 1:22 may overflow\nfit 2 main 1:37 fits\n\
            fit 3 main 1:57 fits\nfit 4 main 1:72 may overflow\nverdicts proved 0 unknown 0\n",
    ),
    (
        MIXED,
        "point 8 main 1:69\n  unreachable\nfit 3 main 1:32 may overflow\nfit 4 main 1:38 may overflow\n\
            fit 5 main 1:44 fits\nfit 7 main 1:58 may overflow\nverdicts proved 0 unknown 0\n",
    ),
    (
        "int main(void){ int a, b; long c; c = a+b+c; c = c+(a+b); }",
        "point 6 main 1:59\n  row a >= -2147483648\n  row a <= 2147483647\n  row b >= -2147483648\n\
            \x20 row b <= 2147483647\nfit 4 main 1:35 may overflow\nfit 5 main 1:46 may overflow\n\
            verdicts proved 0 unknown 0\n",
    ),
    // if no run comes all fits
    (
        "int main(void){ if(0) { int x=input()*input(); } }",
        "point 4 main 1:50\n  row true\nfit 2 main 1:29 fits\nverdicts proved 0 unknown 0\n",
    ),
    // the sign of a literal is computed
    (
        "int main(void){ int x; if(x!=0) x=-1; x=x-1; }",
        "point 5 main 1:46\n  row x >= -2\n  row x <= -1\nfit 3 main 1:33 fits\nfit 4 main 1:39 fits\n\
            verdicts proved 0 unknown 0\n",
    ),
    (
        APART,
        "\nfit 7 main 1:75 may overflow\nverdicts proved 0 unknown 0\n",
    ),
    (
        "int main(void){}",
        "point 1 main 1:16\n  row true\nverdicts proved 0 unknown 0\n",
    ),
    (
        COUNTING,
        "point 4 main 1:45\n  row i = 10\nfit 3 main 1:38 fits\nverdicts proved 0 unknown 0\n",
    ),
    (
        "int main(void){ for(int i=0; i<3; i++) ; }",
        "point 5 main 1:42\n  row true\nfit 3 main 1:35 fits\nverdicts proved 0 unknown 0\n",
    ),
    (WIDENED, FORGOTTEN),
    (TOLD, REMEMBERED),
];

/// Conditions: the right side of `&&` is asked of what the left one leaves if it is true, that of `||` if it is
/// false; as they are written.
static CONDITIONS: [(&str, &str); 5] = [
    (
        "int main(void){ int x; if(x<2147483647 && x+1>0) x=x+1; if(x!=0 && 100/x>1) ; }",
        "point 6 main 1:79\n  row x >= -2147483648\n  row x <= 2147483647\nfit 2 main 1:24 fits\n\
            fit 3 main 1:50 fits\nfit 4 main 1:57 may overflow\nverdicts proved 0 unknown 0\n",
    ),
    (
        "int main(void){ int x; if(0 && x+1>0) ; if(1 || x+1>0) ; }",
        "point 6 main 1:58\n  row x >= -2147483648\n  row x <= 2147483647\nfit 2 main 1:24 fits\n\
            fit 4 main 1:41 fits\nverdicts proved 0 unknown 0\n",
    ),
    // its lines come after those of assertions, which don't depend on them
    (
        "int main(void){ int x; assert(x+1>x); }",
        "assert 2 main 1:24 proved\nfit 2 main 1:24 may overflow\nverdicts proved 1 unknown 0\n",
    ),
    (
        "int main(void){ int x=1; while(x<1000000) x=x+x; assert(x<=1999998); }",
        "assert 4 main 1:50 proved\nfit 3 main 1:43 fits\nverdicts proved 1 unknown 0\n",
    ),
    (
        "int main(void){ int x=1; while(1) x=x+x; assert(x<=1999998); }",
        "assert 4 main 1:42 proved\nfit 3 main 1:35 may overflow\nverdicts proved 1 unknown 0\n",
    ),
];

/// What calls compute: arguments, and results on their way.
static CALLS: [Line; 7] = [
    (
        FITS,
        HALVES,
        Status::Proved,
        "point 11 main 1:99\n  unreachable\nfit 2 main/half@1:56 1:19 may overflow\n\
            fit 5 main/half@1:71 1:19 may overflow\nfit 8 main/half@1:80 1:19 may overflow\n\
            fit 10 main 1:89 fits\nverdicts proved 0 unknown 0\n",
    ),
    (
        FITS,
        NODES,
        Status::Proved,
        "point 16 main 1:155\n  row y >= -2147483647\n  row y <= 2147483647\n  row x >= -2147483648\n\
            \x20 row x <= 2147483647\nfit 2 main 1:67 fits\nfit 3 main 1:75 fits\nfit 4 main 1:81 fits\n\
            fit 5 main 1:88 may overflow\nfit 6 main 1:96 may overflow\nfit 8 main/f@1:105 1:16 fits\n\
            fit 10 main 1:111 fits\nfit 12 main 1:140 may overflow\nfit 13 main 1:147 may overflow\n\
            verdicts proved 0 unknown 0\n",
    ),
    (
        FITS,
        GIVEN,
        Status::Proved,
        "point 7 main 1:81\n  row x >= -2147483648\n  row x <= 2147483647\nfit 1 main 1:55 may overflow\n\
            verdicts proved 0 unknown 0\n",
    ),
    (
        FITS,
        RESULTS,
        Status::Unknown,
        "assert 3 main 1:43 unknown\nassert 6 main 1:77 proved\nverdicts proved 1 unknown 1\n",
    ),
    (
        FITS,
        RETURNED,
        Status::Proved,
        "point 4 main 1:89\n  unreachable\nverdicts proved 0 unknown 0\n",
    ),
    // a `long` on its way to `main`'s type
    (
        FITS,
        "long f(void){ return input(); } int main(void){ return f(); }",
        Status::Proved,
        "point 4 main 1:61\n  unreachable\nfit 2 main/f@1:56 1:15 may overflow\nverdicts proved 0 unknown 0\n",
    ),
    // a way of an `int` value by an `int`, a `long` and an `int`
    (
        FITS,
        "int f(int a){ return a; } long g(int a){ return f(a); } int main(void){ int x=g(1); }",
        Status::Proved,
        "point 6 main 1:85\n  row x = 1\nfit 3 main/g@1:79/f@1:49 1:15 fits\nverdicts proved 0 unknown 0\n",
    ),
];

/// Whole texts: a report, one as JSON, one of a source that computes nothing, and a refusal.
static WHOLE: [Answer; 4] = [
    (
        FITS,
        COUNTING,
        SOUND,
        Status::Proved,
        "analysis box parts 1 delay 1 narrow 1 limited no fits yes\nflagged 0\npoint 1 main 1:21\n  row true\n\
            point 2 main 1:26\n  row i >= 0\n  row i <= 10\npoint 3 main 1:38\n  row i >= 0\n  row i <= 9\n\
            point 4 main 1:45\n  row i = 10\nfit 3 main 1:38 fits\nverdicts proved 0 unknown 0\n",
    ),
    (
        "lra analyse --json --fits --domain box",
        "int main(void){ int x=1; x=x+1; x=x/x; }",
        SOUND,
        Status::Proved,
        "{\"analysis\":{\"delay\":1,\"domain\":\"box\",\"fits\":true,\"limited\":false,\"narrow\":1,\"parts\":1},\
            \"asserts\":[],\"fits\":[{\"point\":2,\"verdict\":\"fits\"},{\"point\":3,\"verdict\":\"may overflow\"}],\
            \"flagged\":0,\"points\":[{\"number\":1,\"parts\":[{\"rows\":[]}],\"path\":\"main\",\"place\":\"1:21\"},\
            {\"number\":2,\"parts\":[{\"rows\":[\"x = 1\"]}],\"path\":\"main\",\"place\":\"1:26\"},\
            {\"number\":3,\"parts\":[{\"rows\":[\"x = 2\"]}],\"path\":\"main\",\"place\":\"1:33\"},\
            {\"number\":4,\"parts\":[{\"rows\":[\"x >= -2147483648\",\"x <= 2147483647\"]}],\"path\":\"main\",\
            \"place\":\"1:40\"}],\"proved\":0,\"unknown\":0}\n",
    ),
    (
        "lra analyse --json --fits --domain box",
        "int main(void){}",
        SOUND,
        Status::Proved,
        "{\"analysis\":{\"delay\":1,\"domain\":\"box\",\"fits\":true,\"limited\":false,\"narrow\":1,\"parts\":1},\
            \"asserts\":[],\"fits\":[],\"flagged\":0,\"points\":[{\"number\":1,\"parts\":[{\"rows\":[]}],\
            \"path\":\"main\",\"place\":\"1:16\"}],\"proved\":0,\"unknown\":0}\n",
    ),
    (
        FITS,
        "int g=2147483648; int main(void){}",
        SOUND,
        Status::Refused,
        "refused 3 BadLiteral at 1:7\n",
    ),
];

#[test]
fn what_fits(rt: HostRuntime) {
    have_lines(&rt, rt.alloc(), &EACH_DOMAIN);
    are_proved(&rt, rt.alloc(), FITS, &EXPRESSIONS);
    are_proved(&rt, rt.alloc(), FITS, &CONDITIONS);
    have_lines(&rt, rt.alloc(), &CALLS);
    are_answers(&rt, rt.alloc(), &WHOLE);
}
