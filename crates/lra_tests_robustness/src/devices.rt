//! Devices that fail at each call in turn.

use lra_tests_runs::Status;
use lra_tests_runs::memory::{BOXES, PROVED, PROVED_REPORT, ended, written};
use std::alloc::{AllocError, Global};

/// Each of the six reads fails in turn, and nothing is written.
#[test]
fn each_read_fails_in_turn(rt: HostRuntime) {
    for call in 1..7 {
        let ended = written(rt.alloc(), BOXES, PROVED.as_bytes(), (call, 0), "");
        assert!(rt; ended == Ok((Status::ReadFault, true)), "{call}");
    }
}

/// How a run ends whose write after so many fails, and whether what these wrote is held.
fn ends_behind(alloc: Global, calls: u8) -> Result<(Status, bool), AllocError> {
    let calls = usize::from(calls);
    let report = PROVED_REPORT.as_bytes();
    let front = &report[..report.len().min(10 * calls)];
    let (end, text) = ended(alloc, BOXES, PROVED.as_bytes(), (0, calls as u64 + 1))?;
    Ok((end, text.as_bytes() == front))
}

/// Each of the 24 writes fails in turn, and what came before it is held.
#[test]
fn each_write_fails_in_turn(rt: HostRuntime) {
    assert!(rt; PROVED_REPORT.len() == 231);
    for calls in 0..24 {
        let ended = ends_behind(rt.alloc(), calls);
        assert!(rt; ended == Ok((Status::WriteFault, true)), "{calls}");
    }
}
