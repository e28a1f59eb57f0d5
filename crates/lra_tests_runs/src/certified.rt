//! What `certify` answers: whole certificates, lines of some, and refusals.

use crate::checks::{Answer, Line, are_answers, have_lines};
use crate::memory::SOUND;
use lra_commands::Status;

const CERTIFY: &str = "lra certify";

const FIRST: &str = "int main(void){ long x; x = 3; assert(x >= 3); }";

const LOOP: &str = "int main(void){ long i=0; while(i<10) i=i+1; }";

const EMPTY: &str = "int main(void){}";

const STUCK: &str = "int main(void){ while(1){} assert(0); }";

const UNKNOWN: &str = "int main(void){ long x=input(); assert(x>0); }";

const BOTH: &str =
    "int main(void){ long a=input(), b=input(); assume(a>=0 && b>=0); assume(a!=0 && b!=0); }";

const EITHER: &str =
    "int main(void){ long a=input(), b=input(); assume(a>=0 && b>=0); assume(a!=0 || b!=0); }";

const SWITCH: &str =
    "int main(void){ long x=input(); switch(x){ case 1: case 2: x=0; default: ; } }";

const TWICE: &str =
    "long inc(long x){ x=x+1; return x; } int main(void){ long x=inc(1); x=inc(x); assert(x==3); }";

const ELEVEN: &str = "int main(void){ long x=input(); \
    assume(x!=1&&x!=2&&x!=3&&x!=4&&x!=5&&x!=6&&x!=7&&x!=8&&x!=9&&x!=10&&x!=11); }";

/// Whole texts: assertions that are proved and one that isn't, a loop, a point to which no run comes.
static WHOLE: [Answer; 5] = [
    (
        CERTIFY,
        FIRST,
        SOUND,
        Status::Proved,
        "certificate bytes 48\nint main(void){ long x; x = 3; assert(x >= 3); }\npoint 1\n\
        point 2\npoint 3\n  = -3 1\npoint 4\n  = -3 1\nedge 0 1\nedge 1 2\nedge 2 3\n\
        by 1 0\nby 1 0\nedge 3 4\nby 1 0 1 0\nby 1 0 -1 0\nassert 3\ndead 1 0 1 1\nend\n",
    ),
    (
        CERTIFY,
        LOOP,
        SOUND,
        Status::Proved,
        "certificate bytes 46\nint main(void){ long i=0; while(i<10) i=i+1; }\npoint 1\n\
        point 2\n  >= 0 1\n  >= 10 -1\npoint 3\n  >= 0 1\n  >= 9 -1\npoint 4\n  = -10 1\n\
        edge 0 1\nedge 1 2\nby 1 0\nby 1 10\nedge 2 3\nby 1 0 1 0 0\nby 1 0 0 0 1\n\
        edge 2 4\nby 1 0 0 0 1\nby 1 0 0 1 0\nedge 3 2\nby 9 0 10 1\nby 1 0 0 1\nend\n",
    ),
    (
        CERTIFY,
        EMPTY,
        SOUND,
        Status::Proved,
        "certificate bytes 16\nint main(void){}\npoint 1\nedge 0 1\nend\n",
    ),
    (
        CERTIFY,
        STUCK,
        SOUND,
        Status::Proved,
        "certificate bytes 39\nint main(void){ while(1){} assert(0); }\npoint 1\npoint 2\n\
        point 3 empty\npoint 4 empty\nedge 0 1\nedge 1 2\ndead 2 0 1\nedge 1 2\nedge 1 3\n\
        dead 1 0 -1\nedge 2 1\nedge 3 4\nedge 3 4\nassert 3\nend\n",
    ),
    (
        CERTIFY,
        UNKNOWN,
        SOUND,
        Status::Unknown,
        "certificate bytes 46\nint main(void){ long x=input(); assert(x>0); }\npoint 1\n\
        point 2\npoint 3\n  >= -1 1\nedge 0 1\nedge 1 2\nedge 2 3\nby 1 0 1\nend\n",
    ),
];

/// Lines of certificates: which sides of conditions come first, and a call of which a point is never reached.
static PARTS: [Line; 9] = [
    (
        CERTIFY,
        BOTH,
        Status::Proved,
        "point 5\n  >= -1 1 0\n  >= -1 0 1\nedge 0 1\n",
    ),
    (
        CERTIFY,
        BOTH,
        Status::Proved,
        "edge 4 5\ndead 1 0 0 1 0 1\nedge 4 5\ndead 1 0 0 1 0 1\nedge 4 5\ndead 1 0 1 0 1 0\n\
        edge 4 5\nby 1 0 0 0 1 0\nby 1 0 0 0 0 1\nend\n",
    ),
    (
        CERTIFY,
        EITHER,
        Status::Proved,
        "point 5\n  >= -1 1 1\n  >= 0 1 0\n  >= 0 0 1\nedge 0 1\n",
    ),
    (
        CERTIFY,
        EITHER,
        Status::Proved,
        "edge 4 5\ndead 1 0 1 0 1\nedge 4 5\nby 1 0 0 1 1\nby 1 0 1 0 0\nby 1 0 0 1 0\n\
        edge 4 5\ndead 1 0 0 1 0 1\nedge 4 5\nby 1 0 0 0 1 1\nby 1 0 0 0 1 0\n\
        by 1 0 0 1 0 0\nend\n",
    ),
    (
        CERTIFY,
        SWITCH,
        Status::Proved,
        "edge 2 3\nby 1 0 1\nby 1 1 -1\nedge 2 3\nby 1 1 1\nby 1 0 -1\nedge 2 4\nedge 2 4\n\
        dead 1 0 1 1\nedge 2 4\ndead 3 0 1 1\nedge 2 4\n",
    ),
    (CERTIFY, TWICE, Status::Proved, "point 4 empty\n"),
    (CERTIFY, TWICE, Status::Proved, "point 8 empty\n"),
    (
        CERTIFY,
        TWICE,
        Status::Proved,
        "edge 7 9\nby 1 0 0 1\nby 1 0 0 -1\n",
    ),
    (
        CERTIFY,
        TWICE,
        Status::Proved,
        "assert 9\ndead 1 0 1 1\ndead 1 0 -1 1\nend\n",
    ),
];

/// A source that is refused, and one with too many paths.
static REFUSED: [Answer; 4] = [
    (
        CERTIFY,
        "$",
        SOUND,
        Status::Refused,
        "refused 2 BadByte at 1:1\n",
    ),
    (
        CERTIFY,
        ELEVEN,
        SOUND,
        Status::Refused,
        "refused paths at point 2\n",
    ),
    (
        "lra certify --domain box",
        EMPTY,
        SOUND,
        Status::Usage,
        "refused usage\n",
    ),
    (CERTIFY, FIRST, (1, 0), Status::ReadFault, ""),
];

#[test]
fn certificates_are_written(rt: HostRuntime) {
    are_answers(&rt, rt.alloc(), &WHOLE);
    have_lines(&rt, rt.alloc(), &PARTS);
    are_answers(&rt, rt.alloc(), &REFUSED);
}
