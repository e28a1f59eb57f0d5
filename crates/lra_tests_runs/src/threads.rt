//! Runs over programs of several threads: what others do between two steps, what each writes, and what is refused.

use crate::checks::{Answer, Line, are_answers, have_lines};
use crate::memory::SOUND;
use lra_commands::Status;

/// One thread gives a global two values, the other reads it.
const HANDED: &str =
    "long g; void t1(void){ g=1; g=2; } void t2(void){ long x; x=g; assert(x<=2); assert(x!=2); }";

/// A thread that counts to five, and one that only looks.
const COUNTING: &str =
    "long g; void t1(void){ while(input()) if(g<5) g=g+1; } void t2(void){ assert(g>=0); }";

/// Between the test of each thread and its step the other may step, so nothing bounds what both write.
const BOTH: &str =
    "long g; void t1(void){ if(g<4) g=g+1; } void t2(void){ if(g<4) g=g+1; assert(g<=5); assert(g<=4); }";

/// Two threads that step without a test.
const STEPS: &str = "long g; void t1(void){ g=g+1; } void t2(void){ g=g+1; assert(g>=0); }";

/// A function that two threads call.
const CALLED: &str =
    "long g; long f(void){ return g+1; } void t1(void){ g=f(); } void t2(void){ g=5; } \
    void t3(void){ long x=f(); assert(x>=1); }";

/// An index that is kept in a local, one that is tested and then used, and one that is tested and used at once.
const INDEXES: &str =
    "int a[4], g; void t1(void){ g=input(); assume(g>=0 && g<4); } void t2(void){ int i=g; \
    if(i>=0 && i<4) a[i]=1; if(g>=0 && g<4) a[g]=1; if(g>=0 && g<4 && a[g]>0) ; }";

/// A thread that never reaches what it would write, and comes after the other in the source.
const ENDLESS: &str = "long g=3; void t2(void){ return; } void t1(void){ while(1) ; g=1; }";

/// A function with a thread's name whose number doesn't follow.
const APART: &str = "void t1(void){;} void t2(void){;} void t4(void){;}";

/// What is returned to a global, read into it, and left open to the type: all of it is written.
const GIFTS: &str = "int g, h, k; int f(void){ } void t1(void){ g=f(); h=input(); } \
    void t2(void){ k=g; assert(k<=2147483647); }";

/// A thread's own writes aren't reported to it.
const OWN: &str =
    "long g; void t1(void){ g=7; g=1; assert(g==1); } void t2(void){ long x=g; assert(x<=7); }";

/// `main` is a function as others are, and may have parameters.
const MAIN: &str =
    "long g; void main(long k){ g=k; } void t1(void){ main(3); } void t2(void){ assert(g>=0); assert(g<=3); }";

/// A number past 127 bits in the second thread: its points are numbered on after those of the first.
const FLAGGED: &str = "void t1(void){;} void t2(void){ long x=9223372036854775807; \
    x=9223372036854775807*x; x=9223372036854775807*x; }";

/// A number past 127 bits that the first thread gives to the second: the second round flags it, the first doesn't.
const LATER: &str = "long g, h; void t1(void){ g=9223372036854775807; } void t2(void){ \
    h=9223372036854775807*g; h=9223372036854775807*h; }";

const PLAIN: &str = "lra threads";

const UNNARROWED: &str = "lra threads --delay 0 --narrow 0";

/// Whole texts.
static REPORTS: [Answer; 5] = [
    (
        PLAIN,
        HANDED,
        SOUND,
        Status::Unknown,
        "threads box count 2 delay 1 narrow 1\nflagged 0\n\
        point 1 t1 1:24\n  row g = 0\npoint 2 t1 1:29\n  row g = 1\npoint 3 t1 1:34\n  row g = 2\n\
        point 4 t2 1:56\n  row g >= 0\n  row g <= 2\npoint 5 t2 1:59\n  row g >= 0\n  row g <= 2\n\
        point 6 t2 1:64\n  row g >= 0\n  row g <= 2\n  row x >= 0\n  row x <= 2\n\
        point 7 t2 1:78\n  row g >= 0\n  row g <= 2\n  row x >= 0\n  row x <= 2\n\
        point 8 t2 1:92\n  row g >= 0\n  row g <= 2\n  row x >= 0\n  row x <= 1\n\
        assert 6 t2 1:64 proved\nassert 7 t2 1:78 unknown\n\
        writes t1 g 1 2\nverdicts proved 1 unknown 1\n",
    ),
    (
        UNNARROWED,
        STEPS,
        SOUND,
        Status::Proved,
        "threads box count 2 delay 0 narrow 0\nflagged 0\n\
        point 1 t1 1:24\n  row g >= 0\npoint 2 t1 1:31\n  row g >= 1\n\
        point 3 t2 1:48\n  row g >= 0\npoint 4 t2 1:55\n  row g >= 1\npoint 5 t2 1:69\n  row g >= 1\n\
        assert 4 t2 1:55 proved\n\
        writes t1 g 1 none\nwrites t2 g 1 none\nverdicts proved 1 unknown 0\n",
    ),
    (
        PLAIN,
        ENDLESS,
        SOUND,
        Status::Proved,
        "threads box count 2 delay 1 narrow 1\nflagged 0\n\
        point 1 t1 1:51\n  row g = 3\npoint 2 t1 1:60\n  row g = 3\npoint 3 t1 1:62\n  unreachable\n\
        point 4 t1 1:67\n  unreachable\npoint 5 t2 1:26\n  row g = 3\npoint 6 t2 1:34\n  unreachable\n\
        verdicts proved 0 unknown 0\n",
    ),
    (
        PLAIN,
        APART,
        SOUND,
        Status::Proved,
        "threads box count 2 delay 1 narrow 1\nflagged 0\n\
        point 1 t1 1:15\n  row true\npoint 2 t1 1:16\n  row true\n\
        point 3 t2 1:32\n  row true\npoint 4 t2 1:33\n  row true\nverdicts proved 0 unknown 0\n",
    ),
    (PLAIN, HANDED, (1, 0), Status::ReadFault, ""),
];

/// Lines: those of points, then the verdicts with what is written.
static LINES: [Line; 16] = [
    (
        PLAIN,
        COUNTING,
        Status::Proved,
        "\nflagged 0\npoint 1 t1 1:24\n  row g >= 0\n",
    ),
    (
        PLAIN,
        COUNTING,
        Status::Proved,
        "point 5 t2 1:71\n  row g >= 0\n  row g <= 5\n",
    ),
    (
        PLAIN,
        COUNTING,
        Status::Proved,
        "assert 5 t2 1:71 proved\nwrites t1 g 1 5\nverdicts proved 1 unknown 0\n",
    ),
    (
        PLAIN,
        BOTH,
        Status::Unknown,
        "assert 6 t2 1:71 unknown\nassert 7 t2 1:85 unknown\n\
        writes t1 g 1 none\nwrites t2 g 1 none\nverdicts proved 0 unknown 2\n",
    ),
    (
        PLAIN,
        CALLED,
        Status::Proved,
        "threads box count 3 delay 1 narrow 1\nflagged 0\npoint 1 t1 1:52\n",
    ),
    (
        PLAIN,
        CALLED,
        Status::Proved,
        "point 2 t1/f@1:54 1:23\n  row g >= 0\n  row g <= 5\n\
        point 3 t1/f@1:54 1:35\n  unreachable\npoint 4 t1 1:59\n  row g >= 1\n  row g <= 6\n",
    ),
    (
        PLAIN,
        CALLED,
        Status::Proved,
        "point 10 t3 1:110\n  row g >= 0\n  row g <= 6\n  row x >= 1\n  row x <= 7\n",
    ),
    (
        PLAIN,
        CALLED,
        Status::Proved,
        "assert 10 t3 1:110 proved\nwrites t1 g 1 6\nwrites t2 g 5 5\nverdicts proved 1 unknown 0\n",
    ),
    (
        PLAIN,
        INDEXES,
        Status::Unknown,
        "\nflagged 0\npoint 1 t1 1:29\n  row g = 0\n",
    ),
    (
        PLAIN,
        INDEXES,
        Status::Unknown,
        "access 6 t2 1:103 in bounds\naccess 8 t2 1:127 unknown\naccess 9 t2 1:153 in bounds\n\
        writes t1 g -2147483648 2147483647\nverdicts proved 2 unknown 1\n",
    ),
    (
        PLAIN,
        GIFTS,
        Status::Proved,
        "writes t1 g -2147483648 2147483647\nwrites t1 h -2147483648 2147483647\n\
        writes t2 k -2147483648 2147483647\nverdicts proved 1 unknown 0\n",
    ),
    (
        PLAIN,
        OWN,
        Status::Proved,
        "assert 3 t1 1:34 proved\nassert 6 t2 1:75 proved\nwrites t1 g 1 7\n\
        verdicts proved 2 unknown 0\n",
    ),
    (
        PLAIN,
        FLAGGED,
        Status::Proved,
        "threads box count 2 delay 1 narrow 1\nflagged at point 5\npoint 1 t1 1:15\n  row true\n",
    ),
    (
        PLAIN,
        LATER,
        Status::Proved,
        "threads box count 2 delay 1 narrow 1\nflagged at point 4\npoint 1 t1 1:27\n",
    ),
    (
        PLAIN,
        MAIN,
        Status::Proved,
        "point 2 t1/main@1:50 1:28\n  row g = 0\n  row k = 3\n",
    ),
    (
        "lra threads --narrow=4 --delay=8",
        MAIN,
        Status::Proved,
        "threads box count 2 delay 8 narrow 4\nflagged 0\n",
    ),
];

/// What is no program of several threads.
static REFUSED: [Answer; 9] = [
    (
        PLAIN,
        "void t1(void){}",
        SOUND,
        Status::Refused,
        "refused 17 NoThreads at 1:16\n",
    ),
    (
        PLAIN,
        "void t1(void){} int main(void){}",
        SOUND,
        Status::Refused,
        "refused 17 NoThreads at 1:33\n",
    ),
    (
        PLAIN,
        "void t1(void){} void t2(long a){}",
        SOUND,
        Status::Refused,
        "refused 17 NoThreads at 1:34\n",
    ),
    (
        PLAIN,
        "void t2(void){} void t3(void){}",
        SOUND,
        Status::Refused,
        "refused 17 NoThreads at 1:32\n",
    ),
    (
        PLAIN,
        "void t1(void){x=1;}",
        SOUND,
        Status::Refused,
        "refused 7 UnknownName at 1:15\n",
    ),
    (
        PLAIN,
        "int main(void){} void t2(void){} void t1(void){ t2(); t1(); }",
        SOUND,
        Status::Refused,
        "refused 11 Recursive at 1:55\n",
    ),
    (
        "lra analyse",
        APART,
        SOUND,
        Status::Refused,
        "refused 6 NoMain at 1:51\n",
    ),
    (
        "lra threads --domain box",
        HANDED,
        SOUND,
        Status::Usage,
        "refused usage\n",
    ),
    (
        "lra threads --delay 9",
        HANDED,
        SOUND,
        Status::Usage,
        "refused usage\n",
    ),
];

#[test]
fn threads(rt: HostRuntime) {
    are_answers(&rt, rt.alloc(), &REPORTS);
    have_lines(&rt, rt.alloc(), &LINES);
    are_answers(&rt, rt.alloc(), &REFUSED);
}
