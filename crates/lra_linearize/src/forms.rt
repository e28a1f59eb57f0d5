//! Linear forms of expressions.

ghost use Rattle.std.specs.Prelude.{◌≡◌, ℤ, pos, ◌*ℤ◌, ◌<◌, ◌≤◌, ◌^◌, ◌⊎◌, Some, slice_set, replicate, IfOk};
ghost use Rattle.std.specs.{List.list_all, Prelude.MatchOption, Prelude.true, Prelude.false, Prelude.map};
ghost use Rattle.lra_linearize.specs.Crates.lra_program.ProgramViews.{expr_view, operation_view, slot_view};
ghost use Rattle.lra_linearize.specs.Crates.lra_program.Value.{number, is_word, index_of};
ghost use Rattle.lra_base.specs.{OperatorViews.operator_view, declared.number_types.NumberType.TheVariants.Long};
ghost use Rattle.lra_analysis_spec.specs.Linear.{fitting, entrywise, combined_forms, scaled, is_constant, product_form};
ghost use Rattle.lra_analysis_spec.specs.Linear.{operator_form, constant_form, form_of, live_form, variable_form};
ghost use Rattle.lra_linearize.specs.Forms.{sum_or_difference, rest_form};

use lra_analysis_spec::LinExpr;
use lra_base::Operator;
use lra_program::{Expr, Operation, Slot};
use std::alloc::{AllocError, Global};

/// The sum or the difference, if it has 64 bits.
fn sum_entry(minus: bool, a: i64, b: i64) -> Option<i64>
    ensures { result ≡ number Long (sum_or_difference minus a b) }
{
    if minus {
        a.checked_sub(b)
    } else {
        a.checked_add(b)
    }
}

/// The product, if it has 64 bits.
fn product_entry(a: &i64, b: &i64) -> Option<i64>
    ensures { result ≡ number Long (a.now *ℤ b.now) }
{
    a.checked_mul(*b)
}

/// The sums or differences place by place, if all have 64 bits.
fn sum_entries(
    alloc: Global,
    minus: bool,
    ours: &[i64],
    theirs: &[i64],
) -> Result<Option<Vec<i64>>, AllocError>
    ensures { IfOk result
        (λ o. MatchOption o (list_all is_word (entrywise (sum_or_difference minus) ours.now theirs.now) ≡ false)
        (λ v. (list_all is_word (entrywise (sum_or_difference minus) ours.now theirs.now) ≡ true) ×
        (v.items ≡ entrywise (sum_or_difference minus) ours.now theirs.now))) }
{
    let mut sums = Vec::new(alloc);
    let mut left = ours;
    let mut right = theirs;
    while let Some((a, left_behind)) = left.split_first() {
        let Some((b, right_behind)) = right.split_first() else {
            return Ok(Some(sums));
        };
        match sum_entry(minus, *a, *b) {
            None => return Ok(None),
            Some(sum) => sums.push(sum)?,
        }
        left = left_behind;
        right = right_behind;
    }
    Ok(Some(sums))
}

/// The products with `factor`, if all have 64 bits.
fn product_entries(
    alloc: Global,
    factor: &i64,
    numbers: &[i64],
) -> Result<Option<Vec<i64>>, AllocError>
    ensures { IfOk result (λ o. MatchOption o (list_all is_word (map (λ c. factor.now *ℤ c) numbers.now) ≡ false)
        (λ v. (list_all is_word (map (λ c. factor.now *ℤ c) numbers.now) ≡ true) ×
        (v.items ≡ map (λ c. factor.now *ℤ c) numbers.now))) }
{
    let mut products = Vec::new(alloc);
    let mut left = numbers;
    while let Some((number, behind)) = left.split_first() {
        match product_entry(factor, number) {
            None => return Ok(None),
            Some(product) => products.push(product)?,
        }
        left = behind;
    }
    Ok(Some(products))
}

/// The sum or the difference of two forms, if all its numbers have 64 bits.
pub fn sum_of_forms(
    alloc: Global,
    minus: bool,
    f: &LinExpr,
    g: &LinExpr,
) -> Result<Option<LinExpr>, AllocError>
    ensures { IfOk result (λ o. o ≡ combined_forms (sum_or_difference minus) f.now g.now) }
{
    let Some(constant) = sum_entry(minus, f.constant(), g.constant()) else {
        return Ok(None);
    };
    match sum_entries(alloc, minus, f.coefficients(), g.coefficients())? {
        None => Ok(None),
        Some(sums) => Ok(Some(LinExpr::new(alloc, constant, sums.as_slice())?)),
    }
}

/// The form times `factor`, if all its numbers have 64 bits.
pub fn multiple_of(alloc: Global, factor: i64, f: &LinExpr) -> Result<Option<LinExpr>, AllocError>
    ensures { IfOk result (λ o. o ≡ scaled factor f.now) }
{
    let Some(constant) = product_entry(&factor, &f.constant()) else {
        return Ok(None);
    };
    match product_entries(alloc, &factor, f.coefficients())? {
        None => Ok(None),
        Some(products) => Ok(Some(LinExpr::new(alloc, constant, products.as_slice())?)),
    }
}

/// Whether no variable occurs.
pub fn has_no_variable(f: &LinExpr) -> bool
    ensures { result ≡ is_constant f.now }
{
    let mut left = f.coefficients();
    while let Some((coefficient, behind)) = left.split_first() {
        if *coefficient != 0 {
            return false;
        }
        left = behind;
    }
    true
}

/// The product, if one side is constant.
fn product_of(alloc: Global, f: &LinExpr, g: &LinExpr) -> Result<Option<LinExpr>, AllocError>
    ensures { IfOk result (λ o. o ≡ product_form f.now g.now) }
{
    if has_no_variable(f) {
        let product = multiple_of(alloc, f.constant(), g)?;
        return Ok(product);
    }
    if has_no_variable(g) {
        let product = multiple_of(alloc, g.constant(), f)?;
        return Ok(product);
    }
    Ok(None)
}

/// What the operator makes of two forms; `/` and `%` have none.
pub fn apply_operator(
    alloc: Global,
    operator: Operator,
    f: &LinExpr,
    g: &LinExpr,
) -> Result<Option<LinExpr>, AllocError>
    ensures { IfOk result (λ o. o ≡ operator_form (operator_view operator) f.now g.now) }
{
    match operator {
        Operator::Plus => {
            let sum = sum_of_forms(alloc, false, f, g)?;
            Ok(sum)
        }
        Operator::Minus => {
            let difference = sum_of_forms(alloc, true, f, g)?;
            Ok(difference)
        }
        Operator::Times => {
            let product = product_of(alloc, f, g)?;
            Ok(product)
        }
        Operator::Over | Operator::Modulo => Ok(None),
    }
}

/// The constant form over so many variables.
pub fn constant_of(alloc: Global, live: usize, constant: &i64) -> Result<LinExpr, AllocError>
    requires { live < 2 ^ 62 }
    ensures { IfOk result (λ f. f ≡ constant_form live constant.now) }
{
    let zeros = vec![in alloc; 0i64; live]?;
    let form = LinExpr::new(alloc, *constant, zeros.as_slice())?;
    Ok(form)
}

/// Zeros, and the coefficient in the place if it is one of them.
fn one_entry(
    alloc: Global,
    live: usize,
    place: usize,
    coefficient: i64,
) -> Result<Vec<i64>, AllocError>
    requires { live < 2 ^ 62 }
    ensures { IfOk result (λ v. v.items ≡ slice_set (replicate live (pos 0)) place coefficient) }
{
    let mut entries = vec![in alloc; 0i64; live]?;
    if place < live {
        entries[place] = coefficient;
    }
    Ok(entries)
}

/// The form of this constant, and of the variable of this place with its coefficient.
pub fn form_of_one(
    alloc: Global,
    live: usize,
    place: usize,
    coefficient: i64,
    constant: i64,
) -> Result<LinExpr, AllocError>
    requires { live < 2 ^ 62 }
    ensures { IfOk result (λ f. f ≡ record {
      constant = constant;
      coefficients = slice_set (replicate live (pos 0)) place coefficient;
    }) }
{
    let entries = one_entry(alloc, live, place, coefficient)?;
    let form = LinExpr::new(alloc, constant, entries.as_slice())?;
    Ok(form)
}

/// Where the variable stands in the store; a place too large to be reported is past every variable that may live.
fn saturated_index(base: usize, slot: Slot) -> usize
    ensures { (result ≡ index_of base (slot_view slot)) ⊎
        ((2 ^ 62 ≤ result) × (2 ^ 62 ≤ index_of base (slot_view slot))) }
{
    match slot {
        Slot::Global(k) => k,
        Slot::Local(k) => base.saturating_add(k),
    }
}

/// The form of the variable of this place alone.
pub fn unit_form(alloc: Global, live: usize, place: usize) -> Result<LinExpr, AllocError>
    requires { live < 2 ^ 62 }
    ensures { IfOk result (λ f. f ≡ variable_form live place) }
{
    let form = form_of_one(alloc, live, place, 1, 0)?;
    Ok(form)
}

/// The form of one variable alone, if it is one of those that live.
#[tactic(auto, using(crate::proofs::FormSteps::live_none, crate::proofs::FormSteps::live_some))]
fn variable_of(
    alloc: Global,
    live: usize,
    base: usize,
    slot: Slot,
) -> Result<Option<LinExpr>, AllocError>
    requires { live < 2 ^ 62 }
    ensures { IfOk result (λ o. o ≡ live_form live (index_of base (slot_view slot))) }
{
    let place = saturated_index(base, slot);
    if place >= live {
        return Ok(None);
    }
    let form = unit_form(alloc, live, place)?;
    Ok(Some(form))
}

/// The form of a literal, if it has 64 bits.
fn literal_of(alloc: Global, live: usize, number: u64) -> Result<Option<LinExpr>, AllocError>
    requires { live < 2 ^ 62 }
    ensures { IfOk result (λ o. o ≡ fitting (constant_form live (pos number))) }
{
    match i64::try_from(number) {
        Err(_) => Ok(None),
        Ok(constant) => {
            let form = constant_of(alloc, live, &constant)?;
            Ok(Some(form))
        }
    }
}

/// The linear form of an expression over so many live variables, of which the call's own begin at `base`; none if
/// the expression isn't linear, if a variable doesn't live, or if a number on the way passes 64 bits (Cousot and
/// Halbwachs, 1978).
#[cycle(form)]
pub fn form_of_expression(
    alloc: Global,
    live: usize,
    base: usize,
    e: &Expr,
) -> Result<Option<LinExpr>, AllocError>
    requires { live < 2 ^ 62 }
    ensures { IfOk result (λ o. o ≡ form_of live base (expr_view e.now)) }
{
    match e {
        Expr::Literal(_, number) => literal_of(alloc, live, *number),
        Expr::Read(variable) => variable_of(alloc, live, base, variable.slot),
        Expr::Input | Expr::Element(_, _, _) => Ok(None),
        Expr::Negate(inner) => match form_of_expression(alloc, live, base, inner)? {
            None => Ok(None),
            Some(form) => multiple_of(alloc, -1, &form),
        },
        Expr::Chain(first, operations) => match form_of_expression(alloc, live, base, first)? {
            None => Ok(None),
            Some(form) => form_of_chain(alloc, live, base, form, operations.as_slice()),
        },
    }
}

/// The form of a chain that begins with `first`.
#[cycle(form)]
pub fn form_of_chain(
    alloc: Global,
    live: usize,
    base: usize,
    first: LinExpr,
    operations: &[Operation],
) -> Result<Option<LinExpr>, AllocError>
    requires { live < 2 ^ 62 }
    ensures { IfOk result (λ o. o ≡ rest_form live base (Some first)
        (map operation_view operations.now)) }
{
    let mut form = first;
    'operations: for operation in operations {
        let Some(operand) = form_of_expression(alloc, live, base, &operation.operand)? else {
            return Ok(None);
        };
        match apply_operator(alloc, operation.operator, &form, &operand)? {
            None => return Ok(None),
            Some(next) => form = next,
        }
    }
    Ok(Some(form))
}
