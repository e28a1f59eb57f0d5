ghost use Rattle.std.specs.Prelude.{◌≡◌};

use lra_domain::{Domain, Exactness, Grown, Included, Mode};
use lra_example_domain::ExampleDomain;
use std::alloc::AllocError;

fn gauge(bound: u8) -> ExampleDomain
    ensures { result.dims ≡ 1 }
{
    ExampleDomain { dims: 1, bound }
}

const EXACT: Grown = Grown::Grew(Exactness::Exact);

const FLAGGED: Grown = Grown::Grew(Exactness::Flagged);

/// A head's bound, next's, the mode; what growing the head does, and its bound then.
static GROWTHS: [(u8, u8, Mode, Grown, u8); 7] = [
    (20, 10, Mode::Join, Grown::Stable, 20),
    (10, 20, Mode::Join, EXACT, 20),
    (30, 40, Mode::Join, FLAGGED, 255),
    (30, 40, Mode::Widen, EXACT, 255),
    (60, 50, Mode::Join, FLAGGED, 255),
    (60, 50, Mode::Limited, FLAGGED, 255),
    (255, 200, Mode::Widen, Grown::Stable, 255),
];

/// What growing a head of this bound does, and its bound then.
fn grown(bound: u8, next: u8, mode: Mode) -> Result<(Grown, u8), AllocError> {
    let mut head = gauge(bound);
    let answer = ExampleDomain::grow(&mut head, &gauge(next), mode)?;
    Ok((answer, head.bound))
}

/// A head whose inclusion exceeds a limit is given up, though next lies in it; one whose join exceeds a limit has no
/// bound left.
#[test]
fn heads_grow(rt: HostRuntime) {
    for &(bound, next, mode, want, after) in GROWTHS.iter() {
        assert!(rt;
            grown(bound, next, mode) == Ok((want, after)),
            "{bound} by {next}"
        );
    }
}

/// The bounds of two values; whether the first lies in the second, if their sum is up to 100.
static INCLUSIONS: [(u8, u8, Included); 4] = [
    (30, 80, Included::Wide),
    (40, 255, Included::Yes),
    (255, 40, Included::No),
    (40, 60, Included::Yes),
];

#[test]
fn inclusions_strain(rt: HostRuntime) {
    for &(inner, outer, want) in INCLUSIONS.iter() {
        let answer = gauge(inner).included(&gauge(outer));
        assert!(rt; answer == want, "{inner} in {outer}");
    }
}

/// The bounds of two values; what their join reports, and its bound: sums up to 60 are joined.
static JOINS: [(u8, u8, Exactness, u8); 2] = [
    (20, 40, Exactness::Exact, 40),
    (40, 21, Exactness::Flagged, 255),
];

fn joined(bound: u8, other: u8) -> Result<(Exactness, u8), AllocError> {
    let mut value = gauge(bound);
    let answer = value.join(&gauge(other))?;
    Ok((answer, value.bound))
}

#[test]
fn joins_strain(rt: HostRuntime) {
    for &(bound, other, want, after) in JOINS.iter() {
        assert!(rt;
            joined(bound, other) == Ok((want, after)),
            "{bound} with {other}"
        );
    }
}
