//! Generators and constraints formed again by a form, which takes the place of a coordinate.

ghost use Rattle.std.specs.List.{Contains};
ghost use Rattle.std.specs.Prelude.{◌≡◌, ◌<◌, ◌+◌, suc, take, length, IfOk, IfErr, IfNone, IfSome, OnOk};
ghost use Rattle.lra_mapped_systems.specs.Crates.lra_linear_spec.CheckedArithmetic.{checked_product};
ghost use Rattle.lra_mapped_systems.specs.Crates.lra_linear_spec.CheckedArithmetic.{checked_substitution};
ghost use Rattle.lra_mapped_systems.specs.Crates.lra_linear_spec.Kinds.{is_equality};
ghost use Rattle.lra_mapped_systems.specs.Crates.lra_linear_spec.OperationStrain.{FormingPasses, mapped};
ghost use Rattle.lra_mapped_systems.specs.Crates.lra_linear_spec.OperationStrain.{substituted_rows};
ghost use Rattle.lra_mapped_systems.specs.Crates.{lra_linear_spec.Descriptions.LinearRow};
ghost use Rattle.lra_mapped_systems.specs.Crates.{lra_linear_spec.SetOperations.assigned, lra_row.Rows.IsExcessOf};
ghost use Rattle.lra_systems.specs.Dimensions.{too_many_dimensions};
ghost use Rattle.lra_systems.specs.LinearSystems.{constraints, generators, rows_by_kind, FitKinds};
ghost use Rattle.lra_mapped_systems.specs.Forming.{AllFormed, AreFormed, IsLossAt};

use lra_description_pair::{Loss, dual_rows};
use lra_systems::{Cause, ConSys, Excess, GenSys, Row, RowError, TOO_MANY_DIMENSIONS};
use std::alloc::{AllocError, Global};

// The first rows of the list.
fn first_rows(alloc: Global, list: &ConSys, count: usize) -> Result<ConSys, AllocError>
    requires { count < length list.now.rows }
    ensures { IfOk result (λ chosen. constraints chosen ≡
        rows_by_kind is_equality (take count list.now.rows) (take count list.now.kinds)) }
{
    let n = list.dims();
    if n >= TOO_MANY_DIMENSIONS {
        return Err(AllocError);
    }
    let mut chosen = ConSys::new(alloc, n);
    let (rows, kinds) = (list.rows(), list.kinds());
    for place in 0..count {
        chosen.push_copy(&rows[place], kinds[place])?;
    }
    Ok(chosen)
}

// What is reported about the row at the place, with those before it taken, if a number passes as it is formed.
fn loss_at(alloc: Global, list: &ConSys, place: usize, excess: Excess) -> Result<Loss, AllocError>
    requires { place < length list.now.rows }
    ensures { IfOk result (IsLossAt (constraints list.now) list.now.rows place excess) }
{
    let chosen = first_rows(alloc, list, place)?;
    let (rows, kinds) = (list.rows(), list.kinds());
    let cause = Cause::Excess(excess);
    let loss = Loss::new(alloc, &chosen, &rows[place], kinds[place], cause)?;
    Ok(loss)
}

// What is reported about the generator at the place, if a number passes as it is formed.
fn generator_loss(
    alloc: Global,
    list: &GenSys,
    place: usize,
    excess: Excess,
) -> Result<Loss, AllocError>
    requires small { list.now.dims < too_many_dimensions }
    requires place { place < length list.now.rows }
    ensures { IfOk result (IsLossAt (generators list.now) list.now.rows place excess) }
{
    let rows = dual_rows(alloc, list)?;
    let loss = loss_at(alloc, &rows, place, excess)?;
    Ok(loss)
}

/// The generator with the form's value in the column, or the first number of that value that passes.
pub fn assign_row(alloc: Global, row: &Row, column: usize, form: &Row) -> Result<Row, RowError>
    requires column { column < length row.now }
    requires width { length form.now ≡ length row.now }
    ensures ok { IfOk result (λ r. r ≡ assigned column form.now row.now) }
    ensures excess { IfErr result (IsExcessOf (checked_product form.now row.now)) }
{
    let value = form.dot(row)?;
    let mut numbers = Vec::from_slice(alloc, row.entries())?;
    numbers[column] = value;
    let row = Row::from_slice(alloc, numbers.as_slice())?;
    Ok(row)
}

/// The generators, each with the form's value as coordinate x; or what is reported about the first with which a number
/// passes.
pub fn assign_list(
    alloc: Global,
    list: &GenSys,
    x: usize,
    form: &Row,
) -> Result<Result<GenSys, Loss>, AllocError>
    requires dimension { x < list.now.dims }
    requires width { length form.now ≡ suc list.now.dims }
    requires kinds { FitKinds list.now.rows list.now.kinds }
    ensures dims { IfOk result (λ r. IfOk r (λ all. all.dims ≡ list.now.dims)) }
    ensures generators { IfOk result (λ r. IfOk r (λ all.
        generators all ≡ mapped (suc x) form.now (generators list.now))) }
    ensures kinds { IfOk result (λ r. IfOk r (λ all. FitKinds all.rows all.kinds)) }
    ensures lost { IfOk result (λ r. IfErr r
        (FormingPasses (λ g. checked_product form.now g.row) (generators list.now))) }
{
    if list.dims() >= TOO_MANY_DIMENSIONS {
        return Err(AllocError);
    }
    let mut all = GenSys::new(alloc, list.dims());
    let (rows, kinds) = (list.rows(), list.kinds());
    for place in 0..rows.len() {
        match assign_row(alloc, &rows[place], x + 1, form) {
            Ok(row) => all.push(row, kinds[place])?,
            Err(RowError::Memory) => return Err(AllocError),
            Err(RowError::Excess(excess)) => {
                let loss = generator_loss(alloc, list, place, excess)?;
                return Ok(Err(loss));
            }
        }
    }
    Ok(Ok(all))
}

/// Constraints that were formed again, and what is reported about the first that was left out.
#[derive(Drop)]
pub struct Formed {
    pub list: ConSys,
    pub lost: Option<Loss>,
}

// Takes in the constraint at the place with the form put in for the column; or, if a number passes in it, what is
// reported about that, unless something is reported already.
fn form_next(
    alloc: Global,
    list: &ConSys,
    place: usize,
    column: usize,
    form: &Row,
    formed: &mut Formed,
) -> Result<(), AllocError>
    requires column { column < suc list.now.dims }
    requires width { length form.now ≡ suc list.now.dims }
    requires place { place < length list.now.rows }
    requires formed { AreFormed column form.now list.now.dims list.now.rows list.now.kinds place
        formed.old.list formed.old.lost }
    ensures { OnOk result (AreFormed column form.now list.now.dims list.now.rows list.now.kinds (place + 1)
        formed.new.list formed.new.lost) }
{
    let (rows, kinds) = (list.rows(), list.kinds());
    match rows[place].substitute(column, form) {
        Ok(row) => formed.list.push(row, kinds[place]),
        Err(RowError::Memory) => Err(AllocError),
        Err(RowError::Excess(excess)) => {
            if formed.lost.is_none() {
                formed.lost = Some(loss_at(alloc, list, place, excess)?);
            }
            Ok(())
        }
    }
}

/// The constraints with the form put in for the coordinate x, without those with which a number passes; and what is
/// reported about the first of those.
pub fn substitute_list(
    alloc: Global,
    list: &ConSys,
    x: usize,
    form: &Row,
) -> Result<Formed, AllocError>
    requires dimension { x < list.now.dims }
    requires width { length form.now ≡ suc list.now.dims }
    ensures dims { IfOk result (λ formed. formed.list.dims ≡ list.now.dims) }
    ensures all { IfOk result (λ formed. IfNone formed.lost
        (constraints formed.list ≡ substituted_rows (suc x) form.now (constraints list.now))) }
    ensures among { IfOk result (λ formed. (g : LinearRow) → Contains (constraints formed.list) g →
        Contains (substituted_rows (suc x) form.now (constraints list.now)) g) }
    ensures formed { IfOk result (λ formed.
        AllFormed (suc x) form.now (constraints list.now) (constraints formed.list)) }
    ensures lost { IfOk result (λ formed. IfSome formed.lost
        (FormingPasses (λ g. checked_substitution (suc x) form.now g.row) (constraints list.now))) }
{
    if list.dims() >= TOO_MANY_DIMENSIONS {
        return Err(AllocError);
    }
    let mut formed = Formed {
        list: ConSys::new(alloc, list.dims()),
        lost: None,
    };
    let (rows, _kinds) = (list.rows(), list.kinds());
    for place in 0..rows.len() {
        form_next(alloc, list, place, x + 1, form, &mut formed)?;
    }
    Ok(formed)
}
