//! Linear forms, by the variables that occur in them.

ghost use Rattle.std.specs.Prelude.{◌≡◌, ◌≢◌, ◌<◌, ◌^◌, ℤ, pos, List, [], ◌∷◌, ◌++◌, length, unsigned_abs};
ghost use Rattle.lra_octagon.specs.Forms.{Term, terms_at, terms_from, shape_of};

/// What a form is to an octagon: a constant, a multiple of one signed variable or of the sum of two, or another. The
/// first number is the magnitude of the coefficients, the others are signed variables.
#[derive(Clone, Copy, Debug, PartialEq, Eq)]
pub enum FormShape {
    Constant,
    One(u128, usize),
    Two(u128, usize, usize),
    Other,
}

/// The signed variable of a coefficient of `x_k`.
fn signed_of(k: usize, factor: i128) -> usize
    requires few { k < 2 ^ 60 }
    requires some { factor ≢ pos 0 }
    ensures { terms_at k factor [] ≡ record { signed = result; magnitude = unsigned_abs factor } ∷ [] }
{
    if factor > 0 { 2 * k } else { 2 * k + 1 }
}

/// The shape of a form with one more coefficient, of `x_k`.
pub(crate) fn with_coefficient(shape: FormShape, k: usize, factor: i128) -> FormShape
    requires few { k < 2 ^ 60 }
    ensures { (ts : List Term) → shape ≡ shape_of ts → result ≡ shape_of (ts ++ terms_at k factor []) }
{
    if factor == 0 {
        return shape;
    }
    let signed = signed_of(k, factor);
    let magnitude = factor.unsigned_abs();
    match shape {
        FormShape::Constant => FormShape::One(magnitude, signed),
        FormShape::One(same, first) => {
            if same == magnitude {
                FormShape::Two(magnitude, first, signed)
            } else {
                FormShape::Other
            }
        }
        FormShape::Two(_, _, _) => FormShape::Other,
        FormShape::Other => FormShape::Other,
    }
}

/// The shape of the form with these coefficients.
pub fn classify(factors: &[i128]) -> FormShape
    requires { length factors.now < 2 ^ 60 }
    ensures { result ≡ shape_of (terms_from 0 factors.now) }
{
    let mut shape = FormShape::Constant;
    let mut k = 0;
    let mut left = factors;
    while let Some((factor, later)) = left.split_first() {
        shape = with_coefficient(shape, k, *factor);
        k += 1;
        left = later;
    }
    shape
}
