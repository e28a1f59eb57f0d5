//! Worked images and preimages: values by hand, from the definitions.

ghost use Rattle.std.specs.Prelude.{◌≡◌, length, IfOk};

use crate::shapes::{Constraint, Unfit, set_of, shows};
use lra_domain::LinExpr;
use lra_poly_images::{image, preimage};
use lra_poly_widening::Poly;
use lra_systems::ConKind;
use std::alloc::{AllocError, Global};
use std::process::Abort;

const MAX: i128 = i128::MAX;

// A set, the coordinate that is given the form's value, the form, and what the set then shows.
struct Case {
    name: &'static str,
    set: &'static [Constraint],
    x: usize,
    form: [i64; 3],
    is_exact: bool,
    rows: &'static [[i128; 3]],
    generators: &'static [[i128; 3]],
}

// The half line from the origin along (1, 2).
const HALF_LINE: &[Constraint] = &[([0, 2, -1], ConKind::Eq), ([0, 0, 1], ConKind::Ge)];

// The point (MAX, 0).
const FAR_POINT: &[Constraint] = &[([-MAX, 1, 0], ConKind::Eq), ([0, 0, 1], ConKind::Eq)];

// MAX x1 is at least 1.
const STEEP: &[Constraint] = &[([-1, MAX, 0], ConKind::Ge)];

// x1 is at least 0, and x2 is 0.
const WAY: &[Constraint] = &[([0, 1, 0], ConKind::Ge), ([0, 0, 1], ConKind::Eq)];

static IMAGES: [Case; 7] = [
    Case {
        name: "x1 := x1 + 1 moves",
        set: HALF_LINE,
        x: 0,
        form: [1, 1, 0],
        is_exact: true,
        rows: &[[-2, 2, -1], [0, 0, 1]],
        generators: &[[1, 1, 0], [0, 1, 2]],
    },
    Case {
        name: "x1 := 3 - x1 turns round",
        set: WAY,
        x: 0,
        form: [3, -1, 0],
        is_exact: true,
        rows: &[[0, 0, 1], [3, -1, 0]],
        generators: &[[1, 3, 0], [0, -1, 0]],
    },
    Case {
        name: "x2 := 3 loses the line",
        set: HALF_LINE,
        x: 1,
        form: [3, 0, 0],
        is_exact: true,
        rows: &[[-3, 0, 1], [0, 1, 0]],
        generators: &[[1, 0, 3], [0, 1, 0]],
    },
    Case {
        name: "x1 := x2 - x1 shears",
        set: HALF_LINE,
        x: 0,
        form: [0, -1, 1],
        is_exact: true,
        rows: &[[0, 2, -1], [0, 0, 1]],
        generators: &[[1, 0, 0], [0, 1, 2]],
    },
    Case {
        name: "x1 := x1 keeps what is far",
        set: FAR_POINT,
        x: 0,
        form: [0, 1, 0],
        is_exact: true,
        rows: &[[-MAX, 1, 0], [0, 0, 1]],
        generators: &[[1, MAX, 0]],
    },
    Case {
        name: "x1 := 2 x1 passes the range, and x1 may be anything",
        set: FAR_POINT,
        x: 0,
        form: [0, 2, 0],
        is_exact: false,
        rows: &[[0, 0, 1]],
        generators: &[[1, 0, 0], [0, 1, 0]],
    },
    Case {
        name: "x2 := x1 + 1 passes in the sum",
        set: FAR_POINT,
        x: 1,
        form: [1, 1, 0],
        is_exact: false,
        rows: &[[-MAX, 1, 0]],
        generators: &[[1, MAX, 0], [0, 0, 1]],
    },
];

static PREIMAGES: [Case; 5] = [
    Case {
        name: "x1 := x1 - 1 moves",
        set: HALF_LINE,
        x: 0,
        form: [-1, 1, 0],
        is_exact: true,
        rows: &[[-2, 2, -1], [0, 0, 1]],
        generators: &[[1, 1, 0], [0, 1, 2]],
    },
    Case {
        name: "x1 := 5 asks for x2 = 10",
        set: HALF_LINE,
        x: 0,
        form: [5, 0, 0],
        is_exact: true,
        rows: &[[-10, 0, 1]],
        generators: &[[1, 0, 10], [0, 1, 0]],
    },
    Case {
        name: "x2 := -1 has no point",
        set: HALF_LINE,
        x: 1,
        form: [-1, 0, 0],
        is_exact: true,
        rows: &[[-1, 0, 0]],
        generators: &[],
    },
    Case {
        name: "x1 := x2 - x1 shears back",
        set: WAY,
        x: 0,
        form: [0, -1, 1],
        is_exact: true,
        rows: &[[0, 0, 1], [0, -1, 0]],
        generators: &[[1, 0, 0], [0, -1, 0]],
    },
    Case {
        name: "x1 := 2 x1 passes the range, and the row is left out",
        set: STEEP,
        x: 0,
        form: [0, 2, 0],
        is_exact: false,
        rows: &[],
        generators: &[[1, 0, 0], [0, 1, 0], [0, 0, 1]],
    },
];

// Whether the set is the one that the case names, and as exact.
fn is_told(set: &Poly, is_exact: bool, case: &Case) -> bool {
    is_exact == case.is_exact && shows(set, case.rows, case.generators)
}

fn form_of(alloc: Global, numbers: &[i64; 3]) -> Result<LinExpr, AllocError>
    ensures { IfOk result (λ form. length form.coefficients ≡ 2) }
{
    let [constant, first, second] = *numbers;
    let form = LinExpr::new(alloc, constant, &[first, second])?;
    Ok(form)
}

fn has_image(alloc: Global, case: &Case) -> Result<bool, Unfit> {
    let mut set = set_of(alloc, case.set)?;
    let form = form_of(alloc, &case.form)?;
    let outcome = image(&mut set, case.x.min(1), &form)?;
    Ok(is_told(&set, outcome.is_exact(), case))
}

fn has_preimage(alloc: Global, case: &Case) -> Result<bool, Unfit> {
    let mut set = set_of(alloc, case.set)?;
    let form = form_of(alloc, &case.form)?;
    let outcome = preimage(&mut set, case.x.min(1), &form)?;
    Ok(is_told(&set, outcome.is_exact(), case))
}

fn have_images(rt: &impl Abort, alloc: Global, cases: &[Case]) {
    for case in cases {
        let name = case.name;
        assert!(rt; has_image(alloc, case) == Ok(true), "{name}");
    }
}

fn have_preimages(rt: &impl Abort, alloc: Global, cases: &[Case]) {
    for case in cases {
        let name = case.name;
        assert!(rt; has_preimage(alloc, case) == Ok(true), "{name}");
    }
}

/// The images and preimages, each as it was found by hand.
#[test]
fn images(rt: HostRuntime) {
    have_images(&rt, rt.alloc(), &IMAGES);
    have_preimages(&rt, rt.alloc(), &PREIMAGES);
}
