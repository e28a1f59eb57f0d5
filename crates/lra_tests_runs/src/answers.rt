//! Whole texts: reports, what is said to words that ask for no command, and outputs of scripts.

use crate::checks::{Answer, agrees, are_answers};
use crate::memory::{BOXES, PROVED, PROVED_REPORT, SOUND, written};
use lra_commands::Status;

/// What is said to words that ask for no command.
const USAGE: &str = "refused usage\n";

const UNKNOWN: &str = "int main(void){ long x; x = 2; assert(x >= 3); }";

const UNKNOWN_REPORT: &str = "analysis box parts 1 delay 1 narrow 1 limited no\n\
    flagged 0\npoint 1 main 1:22\n  row true\n\
    point 2 main 1:25\n  row true\npoint 3 main 1:32\n\
    \x20 row x = 2\npoint 4 main 1:48\n  unreachable\n\
    assert 3 main 1:32 unknown\n\
    verdicts proved 0 unknown 1\n";

const BOUNDED: &str =
    "\nint main(void) {\n  long count;\n  assert(count >= 3);\n  assert(count >= 2);\n}\n";

const BOUNDED_REPORT: &str = "analysis box parts 1 delay 1 narrow 1 limited no\n\
    flagged 0\npoint 1 main 3:8\n  row true\n\
    point 2 main 4:3\n  row true\npoint 3 main 5:3\n\
    \x20 row count >= 3\npoint 4 main 6:1\n\
    \x20 row count >= 3\nassert 2 main 4:3 unknown\n\
    assert 3 main 5:3 proved\n\
    verdicts proved 1 unknown 1\n";

const UNREACHABLE: &str = "int main(void){long y;y=1;assert(y>=2);y=7;assert(y>=9);}";

const UNREACHABLE_REPORT: &str = "analysis box parts 1 delay 1 narrow 1 limited no\n\
    flagged 0\npoint 1 main 1:21\n  row true\n\
    point 2 main 1:23\n  row true\npoint 3 main 1:27\n\
    \x20 row y = 1\npoint 4 main 1:40\n  unreachable\n\
    point 5 main 1:44\n  unreachable\npoint 6 main 1:57\n\
    \x20 unreachable\nassert 3 main 1:27 unknown\n\
    assert 5 main 1:44 proved\n\
    verdicts proved 1 unknown 1\n";

/// An endless loop: after it nothing is reached.
const ENDLESS: &str = "int main(void){ while(1){} assert(0); }";

const ENDLESS_REPORT: &str = "analysis box parts 1 delay 1 narrow 1 limited no\n\
    flagged 0\npoint 1 main 1:17\n  row true\n\
    point 2 main 1:26\n  row true\npoint 3 main 1:28\n\
    \x20 unreachable\npoint 4 main 1:39\n  unreachable\n\
    assert 3 main 1:28 proved\n\
    verdicts proved 1 unknown 0\n";

const HOLDS: &str = "dims 2\ncon P >= 0 1 0 ; >= 4 -1 -1\nholds P 2 3 5\n\
    holds P 1 3 2\n\
    holds P 1 170141183460469231731687303715884105727 \
    170141183460469231731687303715884105727\n";

const HOLDS_OUTPUT: &str = "holds P yes\nholds P no\nholds P wide\n\
    flagged at line 5\n";

/// Reports over boxes.
static REPORTS: [Answer; 6] = [
    (BOXES, PROVED, SOUND, Status::Proved, PROVED_REPORT),
    (BOXES, UNKNOWN, SOUND, Status::Unknown, UNKNOWN_REPORT),
    (BOXES, BOUNDED, SOUND, Status::Unknown, BOUNDED_REPORT),
    (
        BOXES,
        UNREACHABLE,
        SOUND,
        Status::Unknown,
        UNREACHABLE_REPORT,
    ),
    (BOXES, ENDLESS, SOUND, Status::Proved, ENDLESS_REPORT),
    // a seventh read and a 25th write aren't made
    (BOXES, PROVED, (7, 25), Status::Proved, PROVED_REPORT),
];

/// Scripts, and what is written for them.
static OUTPUTS: [Answer; 5] = [
    ("lra calc", HOLDS, SOUND, Status::Proved, HOLDS_OUTPUT),
    ("lra calc", "", SOUND, Status::Proved, "flagged 0\n"),
    (
        "lra calc",
        "dims 1\ncon P\ncon Q = 0 1\ncon R >= 1 2 3\n",
        SOUND,
        Status::Refused,
        "refused line 4 WrongDimension 3 2\n",
    ),
    (
        "lra calc",
        "dims 1\ncon P\ncon Q = 0 1\nholds Z 1 0\n",
        SOUND,
        Status::Refused,
        "refused line 4 UnknownName Z\n",
    ),
    (
        "lra calc",
        "con P\n",
        SOUND,
        Status::Refused,
        "refused line 1 BadLine\n",
    ),
];

/// Words that ask for no command.
static OTHER: [&str; 16] = [
    "",
    "lra",
    "lra calc a.calc b.calc",
    "lra analyse --parts 17",
    "lra analyse --json --json",
    "lra analyse --domain cube",
    "lra --domain analyse box",
    "lra analyse --domain box a.c b.c",
    "lra analyse --domain box --delay 9",
    "lra analyse --domain box --parts 0",
    "lra analyse --domain box --json=yes",
    "lra sample --seed 1 --size 401",
    "lra sample --seed 1 --size 1 a.c",
    "lra help",
    "lra analyse --help",
    "lra --version",
];

#[test]
fn answers_are_whole(rt: HostRuntime) {
    are_answers(&rt, rt.alloc(), &REPORTS);
    are_answers(&rt, rt.alloc(), &OUTPUTS);
}

/// The first read would fail, so none is made.
#[test]
fn other_words_are_refused_unread(rt: HostRuntime) {
    for words in OTHER.iter() {
        let ended = written(rt.alloc(), words, PROVED.as_bytes(), (1, 0), USAGE);
        agrees(&rt, ended, Status::Usage, words, USAGE);
    }
}
