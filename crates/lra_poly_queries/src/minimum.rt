//! The least value of a form.

ghost use Rattle.std.specs.Prelude.{◌≡◌, length};
ghost use Rattle.lra_poly_queries.specs.Crates.lra_linear_forms.Form.{form_row};
ghost use Rattle.lra_poly_queries.specs.Minima.{IsMinimum, LeastInRange, TellsMinimum};

use lra_domain::LinExpr;
use lra_poly::{Maximum, Poly};
use lra_systems::opposite;

/// The least value of a form on a polyhedron, or why there is none. Places are those of generators, from 0.
#[derive(Clone, Copy, Debug, PartialEq, Eq)]
pub enum Minimum {
    /// The polyhedron has no point.
    Empty,
    /// The product of the form's opposite with the generator at the place, the first such, passes the range.
    Wide { place: usize },
    /// Along the ray or line at the place, the first such, the form falls without end.
    Unbounded { place: usize },
    /// The least value is `num / den`, in lowest terms, and the point at the place is the first that has it.
    At { num: i128, den: i128, place: usize },
}

/// The least value of the form, and the first point that has it; or why there is none.
pub fn minimise(p: &Poly, form: &LinExpr) -> Minimum
    requires { length form.now.coefficients ≡ p.now.dims }
    ensures first { IsMinimum (form_row form.now) p.now.generators result }
    ensures tells { TellsMinimum p.now (form_row form.now) result }
    ensures range { LeastInRange result }
{
    match p.maximise_opposite(form) {
        Maximum::Empty => Minimum::Empty,
        Maximum::Wide { place } => Minimum::Wide { place },
        Maximum::Unbounded { place } => Minimum::Unbounded { place },
        Maximum::At { num, den, place } => Minimum::At {
            num: opposite(num),
            den,
            place,
        },
    }
}
