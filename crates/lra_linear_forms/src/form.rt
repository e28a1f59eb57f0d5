ghost use Rattle.std.specs.Prelude.{◌≡◌, ◌↔◌, ◌∷◌, pos, ◌+ℤ◌, ◌*ℤ◌, neg_ℤ, map, FitsSigned, IfOk, IfSome, IsNone};
ghost use Rattle.std.specs.{Int.w64, List.All, Option.SomeIff, Prelude.MatchOption, Prelude.if◌then◌else◌};
ghost use Rattle.lra_linear_forms.specs.Crates.lra_linear_spec.Range.{InRange};
ghost use Rattle.lra_linear_forms.specs.Form.{AddsInRange, FormFits, form_row, form_value, opposite_form};
ghost use Rattle.lra_linear_forms.specs.Form.{SummingPasses};

use lra_row::{Row, add, mul};
use std::alloc::{AllocError, Global};
use std::marker::Model;

/// A linear form `constant + c1*x1 + .. + cn*xn`, with a coefficient for each dimension.
pub struct LinExpr {
    constant: i64,
    coefficients: Vec<i64>,
}

impl Drop for LinExpr {
    fn drop(self) {
        let LinExpr {
            constant: _,
            coefficients: _,
        } = self;
    }
}

impl Model for LinExpr {
    ghost use Rattle.lra_linear_forms.specs.Form.{Form};

    ghost Value = { Form };

    ghost view = { λ e. record { constant = e.constant; coefficients = e.coefficients.items } };
}

impl LinExpr {
    /// The form with this constant and these coefficients, the oldest dimension's first.
    pub fn new(alloc: Global, constant: i64, coefficients: &[i64]) -> Result<Self, AllocError>
        ensures { IfOk result (λ e. e ≡ record { constant = constant; coefficients = coefficients.now }) }
    {
        Ok(LinExpr {
            constant,
            coefficients: Vec::from_slice(alloc, coefficients)?,
        })
    }

    /// A copy of the form.
    pub fn copy(&self, alloc: Global) -> Result<Self, AllocError>
        ensures { IfOk result (λ e. e ≡ self.now) }
    {
        LinExpr::new(alloc, self.constant, self.coefficients.as_slice())
    }

    /// The constant.
    pub fn constant(&self) -> i64
        ensures { result ≡ self.now.constant }
    {
        self.constant
    }

    /// The coefficients, the oldest dimension's first.
    pub fn coefficients(&self) -> &[i64]
        ensures { result.now ≡ self.now.coefficients }
    {
        self.coefficients.as_slice()
    }

    /// The row of the form: its constant in column 0, then the coefficients.
    pub fn to_row(&self, alloc: Global) -> Result<Row, AllocError>
        ensures { IfOk result (λ r. r ≡ form_row self.now) }
    {
        row_with(alloc, self.constant as i128, self.coefficients.as_slice())
    }

    /// The row of the form, or of the form and 1 `more`.
    pub fn to_row_plus(&self, alloc: Global, more: bool) -> Result<Row, AllocError>
        ensures { IfOk result (λ r. r ≡
            (self.now.constant +ℤ (if more then pos 1 else pos 0)) ∷ self.now.coefficients) }
    {
        let first = self.constant as i128 + more as i128;
        row_with(alloc, first, self.coefficients.as_slice())
    }

    /// The form's value at the store `point`, summed from the constant on in column order; `None` exactly if a
    /// product or a partial sum passes the range -(2^127 - 1) to 2^127 - 1.
    pub fn eval(&self, point: &[i64]) -> Option<i128>
        ensures value { IfSome result (λ v. v ≡ form_value self.now point.now) }
        ensures none { IsNone result ↔ SummingPasses self.now.constant self.now.coefficients point.now }
    {
        sum_of(self.constant, self.coefficients.as_slice(), point)
    }

    /// Minus the form, minus one: at least 0 exactly if the form is below 0. `None` exactly if a number of it
    /// passes i64.
    pub fn opposite(&self, alloc: Global) -> Result<Option<Self>, AllocError>
        ensures { IfOk result (λ o. SomeIff o (FormFits (opposite_form self.now)) (opposite_form self.now)) }
    {
        let Some(coefficients) = negate_coefficients(alloc, self.coefficients.as_slice())? else {
            return Ok(None);
        };
        let form = LinExpr::new(alloc, -1 - self.constant, coefficients.as_slice())?;
        Ok(Some(form))
    }
}

/// The row with this number in column 0, then the coefficients.
fn row_with(alloc: Global, first: i128, coefficients: &[i64]) -> Result<Row, AllocError>
    requires { InRange first }
    ensures { IfOk result (λ r. r ≡ first ∷ coefficients.now) }
{
    let mut numbers = Vec::new(alloc);
    numbers.push(first)?;
    let mut left = coefficients;
    while let Some((coefficient, behind)) = left.split_first() {
        numbers.push(*coefficient as i128)?;
        left = behind;
    }
    let row = Row::from_slice(alloc, numbers.as_slice())?;
    Ok(row)
}

/// The numbers times -1, or `None` if one of these passes i64.
fn negate_coefficients(alloc: Global, coefficients: &[i64]) -> Result<Option<Vec<i64>>, AllocError>
    ensures { IfOk result (λ o. MatchOption o (¬ All (FitsSigned w64) (map neg_ℤ coefficients.now))
        (λ all. All (FitsSigned w64) (map neg_ℤ coefficients.now) × (all.items ≡ map neg_ℤ coefficients.now))) }
{
    let mut all = Vec::new(alloc);
    let mut left = coefficients;
    while let Some((coefficient, later)) = left.split_first() {
        let Some(number) = coefficient.checked_neg() else {
            return Ok(None);
        };
        all.push(number)?;
        left = later;
    }
    Ok(Some(all))
}

/// The sum with a product, or `None` exactly if one of the two passes the range.
fn plus_product(sum: i128, factor: &i64, number: &i64) -> Option<i128>
    ensures { SomeIff result (AddsInRange sum factor.now number.now) (sum +ℤ (factor.now *ℤ number.now)) }
{
    let product = mul(*factor as i128, *number as i128)?;
    let more = add(sum, product)?;
    Some(more)
}

#[tactic(auto, using(crate::proofs::FormLemmas::product_nothing))]
fn sum_of(constant: i64, coefficients: &[i64], point: &[i64]) -> Option<i128>
    ensures value { IfSome result (λ v. v ≡ form_value
        (record { constant = constant; coefficients = coefficients.now }) point.now) }
    ensures none { IsNone result ↔ SummingPasses constant coefficients.now point.now }
{
    let mut sum = constant as i128;
    let mut factors = coefficients;
    let mut numbers = point;
    while let Some((factor, factors_left)) = factors.split_first() {
        let Some((number, numbers_left)) = numbers.split_first() else {
            return Some(sum);
        };
        match plus_product(sum, factor, number) {
            None => return None,
            Some(more) => sum = more,
        }
        factors = factors_left;
        numbers = numbers_left;
    }
    Some(sum)
}
