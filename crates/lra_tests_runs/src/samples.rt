//! Samples, and reports as JSON.

use crate::checks::{Answer, are_answers};
use crate::memory::{PROVED, SOUND};
use lra_commands::Status;

const EMPTY: &str = "int main(void){}";

const UNKNOWN: &str = "int main(void){ long x; x = 2; assert(x >= 3); }";

const NO_BLOCK: &str =
    "sample seed 0 size 0\nbytes 78\npoints 6\nflagged 0\nverdicts proved 1 unknown 0\n";

const ONE_BLOCK: &str =
    "sample seed 0 size 1\nbytes 112\npoints 8\nflagged 0\nverdicts proved 1 unknown 0\n";

const EMPTY_JSON: &str =
    "{\"analysis\":{\"delay\":1,\"domain\":\"poly\",\"limited\":false,\"narrow\":1,\"parts\":1},\"asserts\":[],\
    \"flagged\":0,\"points\":[{\"number\":1,\"parts\":[{\"generators\":[\"point\"],\"rows\":[]}],\"path\":\
    \"main\",\"place\":\"1:16\"}],\"proved\":0,\"unknown\":0}\n";

const UNKNOWN_JSON: &str =
    "{\"analysis\":{\"delay\":1,\"domain\":\"box\",\"limited\":false,\"narrow\":1,\"parts\":1},\"asserts\":[{\"p\
    oint\":3,\"verdict\":\"unknown\"}],\"flagged\":0,\"points\":[{\"number\":1,\"parts\":[{\"rows\":[]}],\"\
    path\":\"main\",\"place\":\"1:22\"},{\"number\":2,\"parts\":[{\"rows\":[]}],\"path\":\"main\",\"place\"\
    :\"1:25\"},{\"number\":3,\"parts\":[{\"rows\":[\"x = \
    2\"]}],\"path\":\"main\",\"place\":\"1:32\"},{\"number\":4,\"parts\":[],\"path\":\"main\",\"place\":\"1\
    :48\"}],\"proved\":0,\"unknown\":1}\n";

/// Samples, which read nothing, and reports as JSON.
static ANSWERS: [Answer; 7] = [
    // the first read would fail, so none is made
    (
        "lra sample --seed 0 --size 0",
        PROVED,
        (1, 0),
        Status::Proved,
        NO_BLOCK,
    ),
    (
        "lra sample --seed 0 --size 1",
        PROVED,
        (1, 0),
        Status::Proved,
        ONE_BLOCK,
    ),
    (
        "lra sample --size 1 --seed 0",
        PROVED,
        (0, 3),
        Status::WriteFault,
        "sample seed 0 size 1",
    ),
    (
        "lra analyse --json",
        EMPTY,
        SOUND,
        Status::Proved,
        EMPTY_JSON,
    ),
    (
        "lra analyse --domain box --json",
        UNKNOWN,
        SOUND,
        Status::Unknown,
        UNKNOWN_JSON,
    ),
    (
        "lra analyse --json",
        "",
        SOUND,
        Status::Refused,
        "refused 6 NoMain at 1:1\n",
    ),
    ("lra analyse --json", EMPTY, (1, 0), Status::ReadFault, ""),
];

#[test]
fn samples_and_json_are_whole(rt: HostRuntime) {
    are_answers(&rt, rt.alloc(), &ANSWERS);
}
