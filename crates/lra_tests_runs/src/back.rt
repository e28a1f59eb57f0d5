//! What `back` answers: whole texts, assertions that are proved and such as can fail, and refusals.

use crate::checks::{Answer, are_answers};
use crate::memory::SOUND;
use lra_commands::Status;

/// The assertion fails from one value that is read.
const SUCCESSOR: &str = "int main(void){ long x=input(), y; y=x+1; assert(y!=0); }";

/// Two values that are joined, and an assertion between them.
const EITHER: &str = "int main(void){ long x; if(input()) x=0; else x=5; assert(x!=3); }";

/// What is known of one variable is given by another, until both branches are joined.
const SIGN: &str =
    "int main(void){ long x=input(), y; if(x>=0) y=1; else y=0; if(y==0) assert(x<0); }";

/// A loop in steps of three.
const THREES: &str = "int main(void){ long n=input(), s=0; while(s<n) s=s+3; assert(s!=7); }";

/// A call from which the assertion can fail, and one from which it can't.
const CALLED: &str =
    "void f(long k){ assert(k<3); } int main(void){ long i=input(); if(i<9) f(i-1); f(0); }";

/// A loop that always has three rounds.
const COUNTED: &str = "int main(void){ long g=0; for(long i=0;i<3;i=i+1) g=g+2; assert(g==6); }";

/// Where both sides are false.
const OUTSIDE: &str = "int main(void){ long x; assert(x>0 || x<-5); }";

/// After a loop, each run fails; the first point on its way is that of the loop's beginning.
const NEVER: &str = "int main(void){ for(long i=0;i<3;i=i+1) ; assert(0); }";

/// What is gone back over for the third time passes the range.
const SCALED: &str = "int main(void){ long x=input(); x=4611686018427387904*x; \
    x=4611686018427387904*x; x=4611686018427387904*x; assert(x!=1); }";

/// As many disjuncts lead to `default` as are too many.
const ELEVEN: &str = "int main(void){ long x; assert(x!=1); switch(x){ case 0: ; case 1: ; \
    case 2: ; case 3: ; case 4: ; case 5: ; case 6: ; case 7: ; case 8: ; case 9: ; \
    case 10: ; default: ; } }";

/// Whole texts without a flag.
static ANSWERS: [Answer; 8] = [
    (
        "lra back --point 4",
        SUCCESSOR,
        SOUND,
        Status::Unknown,
        "back point 4\nflagged 0\npoint 1 main 1:22\n  row true\n  gen point\n\
        point 2 main 1:33\n  row x = -1\n  gen point x=-1\npoint 3 main 1:36\n  row x = -1\n\
        \x20 gen point x=-1 y=0\n  gen line x=0 y=1\npoint 4 main 1:43\n  row x = -1\n\
        \x20 row y = 0\n  gen point x=-1 y=0\npoint 5 main 1:57\n  unreachable\n\
        assert 4 unknown\n",
    ),
    (
        "lra back --point 5",
        EITHER,
        SOUND,
        Status::Proved,
        "back point 5\nflagged 0\npoint 1 main 1:22\n  unreachable\npoint 2 main 1:25\n\
        \x20 unreachable\npoint 3 main 1:37\n  unreachable\npoint 4 main 1:47\n  unreachable\n\
        point 5 main 1:52\n  row x = 3\n  gen point x=3\npoint 6 main 1:66\n  unreachable\n\
        assert 5 proved\n",
    ),
    (
        "lra back --point 7",
        SIGN,
        SOUND,
        Status::Proved,
        "back point 7\nflagged 0\npoint 1 main 1:22\n  unreachable\npoint 2 main 1:33\n\
        \x20 unreachable\npoint 3 main 1:36\n  unreachable\npoint 4 main 1:45\n  unreachable\n\
        point 5 main 1:55\n  unreachable\npoint 6 main 1:60\n  row y = 0\n  row x >= 0\n\
        \x20 gen point x=0 y=0\n  gen ray x=1 y=0\npoint 7 main 1:69\n  row y = 0\n\
        \x20 row x >= 0\n  gen point x=0 y=0\n  gen ray x=1 y=0\npoint 8 main 1:82\n\
        \x20 unreachable\nassert 7 proved\n",
    ),
    (
        "lra back --point 5",
        THREES,
        SOUND,
        Status::Unknown,
        "back point 5\nflagged 0\npoint 1 main 1:22\n  row true\n  gen point\n\
        point 2 main 1:33\n  row n <= 7\n  gen point n=7\n  gen ray n=-1\n\
        point 3 main 1:38\n  row n <= 7\n  row s >= 0\n  row s <= 7\n  gen point n=7 s=0\n\
        \x20 gen point n=7 s=7\n  gen ray n=-1 s=0\npoint 4 main 1:49\n  row n - s >= 1\n\
        \x20 row n <= 7\n  row s >= 0\n  row s <= 4\n  gen point n=1 s=0\n  gen point n=5 s=4\n\
        \x20 gen point n=7 s=0\n  gen point n=7 s=4\npoint 5 main 1:56\n  row s = 7\n\
        \x20 row n <= 7\n  gen point n=7 s=7\n  gen ray n=-1 s=0\npoint 6 main 1:70\n\
        \x20 unreachable\nassert 5 unknown\n",
    ),
    (
        "lra back --point 4",
        CALLED,
        SOUND,
        Status::Unknown,
        "back point 4\nflagged 0\npoint 1 main 1:53\n  row true\n  gen point\n\
        point 2 main 1:64\n  row i >= 4\n  row i <= 8\n  gen point i=4\n  gen point i=8\n\
        point 3 main 1:72\n  row i >= 4\n  row i <= 8\n  gen point i=4\n  gen point i=8\n\
        point 4 main/f@1:72 1:17\n  row i - k = 1\n  row k >= 3\n  row k <= 7\n\
        \x20 gen point i=4 k=3\n  gen point i=8 k=7\npoint 5 main/f@1:72 1:30\n  unreachable\n\
        point 6 main 1:80\n  unreachable\npoint 7 main/f@1:80 1:17\n  unreachable\n\
        point 8 main/f@1:80 1:30\n  unreachable\npoint 9 main 1:86\n  unreachable\n\
        assert 4 unknown\n",
    ),
    (
        "lra back --point 6",
        COUNTED,
        SOUND,
        Status::Proved,
        "back point 6\nflagged 0\npoint 1 main 1:22\n  unreachable\npoint 2 main 1:27\n\
        \x20 unreachable\npoint 3 main 1:36\n  unreachable\npoint 4 main 1:44\n  unreachable\n\
        point 5 main 1:51\n  unreachable\npoint 6 main 1:58\n  unreachable\n\
        point 7 main 1:72\n  unreachable\nassert 6 proved\n",
    ),
    (
        "lra back --point 2",
        OUTSIDE,
        SOUND,
        Status::Unknown,
        "back point 2\nflagged 0\npoint 1 main 1:22\n  row true\n  gen point\n\
        point 2 main 1:25\n  row x >= -5\n  row x <= 0\n  gen point x=-5\n  gen point x=0\n\
        point 3 main 1:46\n  unreachable\nassert 2 unknown\n",
    ),
    (
        "lra back --point 5",
        NEVER,
        SOUND,
        Status::Unknown,
        "back point 5\nflagged 0\npoint 1 main 1:17\n  row i >= 0\n  row i <= 3\n\
        \x20 gen point i=0\n  gen point i=3\npoint 2 main 1:26\n  row true\n  gen point\n\
        point 3 main 1:34\n  row i >= 0\n  row i <= 2\n  gen point i=0\n  gen point i=2\n\
        point 4 main 1:41\n  row i >= 0\n  row i <= 2\n  gen point i=0\n  gen point i=2\n\
        point 5 main 1:43\n  row true\n  gen point\npoint 6 main 1:54\n  unreachable\n\
        assert 5 unknown\n",
    ),
];

/// The flag stands at the source of the path, where the row of what comes back is left out.
static FLAGGED: [Answer; 1] = [(
    "lra back --point 5",
    SCALED,
    SOUND,
    Status::Unknown,
    "back point 5\nflagged at point 2\npoint 1 main 1:22\n  row true\n  gen point\n\
    point 2 main 1:33\n  row true\n  gen point x=0\n  gen line x=1\npoint 3 main 1:58\n\
    \x20 row 21267647932558653966460912964485513216*x = 1\n\
    \x20 gen point x=1/21267647932558653966460912964485513216\npoint 4 main 1:83\n\
    \x20 row 4611686018427387904*x = 1\n  gen point x=1/4611686018427387904\n\
    point 5 main 1:108\n  row x = 1\n  gen point x=1\npoint 6 main 1:122\n  unreachable\n\
    assert 5 unknown\n",
)];

/// What has no assertion, or too many paths; what is no such word, no number of a point, or no source.
static REFUSED: [Answer; 14] = [
    (
        "lra back --point 3",
        SUCCESSOR,
        SOUND,
        Status::Refused,
        "refused point 3\n",
    ),
    (
        "lra back --point 2048",
        SUCCESSOR,
        SOUND,
        Status::Refused,
        "refused point 2048\n",
    ),
    (
        "lra back --point 2",
        CALLED,
        SOUND,
        Status::Refused,
        "refused point 2\n",
    ),
    (
        "lra back --point 1",
        ELEVEN,
        SOUND,
        Status::Refused,
        "refused point 1\n",
    ),
    (
        "lra back --point 2",
        ELEVEN,
        SOUND,
        Status::Refused,
        "refused paths at point 3\n",
    ),
    (
        "lra back --point 3",
        ELEVEN,
        SOUND,
        Status::Refused,
        "refused point 3\n",
    ),
    (
        "lra back --point 1",
        "$",
        SOUND,
        Status::Refused,
        "refused 2 BadByte at 1:1\n",
    ),
    (
        "lra back --point 0",
        SUCCESSOR,
        SOUND,
        Status::Usage,
        "refused usage\n",
    ),
    (
        "lra back --point 2049",
        SUCCESSOR,
        SOUND,
        Status::Usage,
        "refused usage\n",
    ),
    (
        "lra back",
        SUCCESSOR,
        SOUND,
        Status::Usage,
        "refused usage\n",
    ),
    (
        "lra back --point",
        SUCCESSOR,
        SOUND,
        Status::Usage,
        "refused usage\n",
    ),
    (
        "lra back --point 4 --point 4",
        SUCCESSOR,
        SOUND,
        Status::Usage,
        "refused usage\n",
    ),
    (
        "lra back --point 4 --json",
        SUCCESSOR,
        SOUND,
        Status::Usage,
        "refused usage\n",
    ),
    (
        "lra back --point 4",
        SUCCESSOR,
        (1, 0),
        Status::ReadFault,
        "",
    ),
];

#[test]
fn assertions_are_gone_back_from(rt: HostRuntime) {
    are_answers(&rt, rt.alloc(), &ANSWERS);
    are_answers(&rt, rt.alloc(), &FLAGGED);
    are_answers(&rt, rt.alloc(), &REFUSED);
}
