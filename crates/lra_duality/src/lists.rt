//! Lists that the operations take in.

ghost use Rattle.std.specs.Prelude.{◌≡◌, ◌++◌, ◌∷◌, [], suc, length, IfOk};
ghost use Rattle.lra_duality.specs.Crates.lra_systems.LinearSystems.{constraints, generators, FitKinds};
ghost use Rattle.lra_duality.specs.Rows.{test_row};

use lra_cone::ConSys;
use lra_descriptions::{GenSys, TOO_MANY_DIMENSIONS};
use lra_linear_forms::Test;
use std::alloc::{AllocError, Global};

/// The constraints of the first list, then those of the second.
pub fn join_rows(first: &ConSys, second: &ConSys) -> Result<ConSys, AllocError>
    requires { second.now.dims ≡ first.now.dims }
    ensures dims { IfOk result (λ all. all.dims ≡ first.now.dims) }
    ensures rows { IfOk result (λ all. constraints all ≡ constraints first.now ++ constraints second.now) }
{
    let _kinds = first.kinds(); // fact: as many kinds as rows
    let mut all = first.copy()?;
    let (rows, kinds) = (second.rows(), second.kinds());
    for place in 0..rows.len() {
        all.push_copy(&rows[place], kinds[place])?;
    }
    Ok(all)
}

/// The generators of the first list, then those of the second.
pub fn join_generators(first: &GenSys, second: &GenSys) -> Result<GenSys, AllocError>
    requires dims { second.now.dims ≡ first.now.dims }
    requires first { FitKinds first.now.rows first.now.kinds }
    requires second { FitKinds second.now.rows second.now.kinds }
    ensures dims { IfOk result (λ all. all.dims ≡ first.now.dims) }
    ensures generators { IfOk result (λ all. generators all ≡ generators first.now ++ generators second.now) }
    ensures kinds { IfOk result (λ all. FitKinds all.rows all.kinds) }
{
    let _kinds = first.kinds(); // fact: as many kinds as rows
    let mut all = first.copy()?;
    let (given, kinds) = (second.rows(), second.kinds());
    for place in 0..given.len() {
        all.push_copy(&given[place], kinds[place])?;
    }
    Ok(all)
}

/// The constraint of the test, alone.
pub fn list_test(alloc: Global, test: &Test) -> Result<ConSys, AllocError>
    ensures dims { IfOk result (λ list. list.dims ≡ length test.now.expr.coefficients) }
    ensures rows { IfOk result (λ list. constraints list ≡ test_row test.now.kind test.now.expr ∷ []) }
{
    let n = test.expr.coefficients().len();
    if n >= TOO_MANY_DIMENSIONS {
        return Err(AllocError);
    }
    let mut list = ConSys::new(alloc, n);
    let row = test.expr.to_row(alloc)?;
    list.push(row, test.kind)?;
    Ok(list)
}
