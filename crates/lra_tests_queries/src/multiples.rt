//! The first multipliers that show claims.

use crate::shapes::{Constraint, RIGHT, RIGHT_OF_ONE, Unfit, list_of, row_of};
use lra_farkas::{MultipliersFailure, multipliers};
use lra_multipliers::Multipliers;
use lra_systems::ConKind;
use std::alloc::Global;

/// Two premises, a claim's three numbers, the constant first, and its multipliers if it has some: the divisor, that
/// of `1 >= 0`, and those of the premises.
type Case = ([Constraint; 2], [i128; 3], Option<[i128; 4]>);

/// x from 0 to 9.
const BELOW_TEN: [Constraint; 2] = [RIGHT, ([9, -1, 0], ConKind::Ge)];

/// x = 3, and x at most 9.
const THREE: [Constraint; 2] = [([-3, 1, 0], ConKind::Eq), ([9, -1, 0], ConKind::Ge)];

/// x at least 1 and at most 0.
const APART: [Constraint; 2] = [RIGHT_OF_ONE, ([0, -1, 0], ConKind::Ge)];

const CASES: [Case; 6] = [
    (BELOW_TEN, [1, 1, 0], Some([9, 0, 10, 1])),
    (BELOW_TEN, [9, -1, 0], Some([1, 0, 0, 1])),
    (BELOW_TEN, [-1, 1, 0], None),
    (THREE, [3, -1, 0], Some([1, 0, -1, 0])),
    (THREE, [-3, 1, 0], Some([1, 0, 1, 0])),
    (APART, [-1, 0, 0], Some([1, 0, 1, 1])),
];

fn are_numbers(found: &Multipliers, numbers: &[i128; 4]) -> bool {
    let [divisor, constant, first, second] = *numbers;
    found.divisor == divisor
        && found.constant == constant
        && found.factors.as_slice() == [first, second].as_slice()
}

fn is_first(alloc: Global, case: &Case) -> Result<bool, Unfit> {
    let premises = list_of(alloc, &case.0)?;
    let claim = row_of(alloc, &case.1)?;
    match multipliers(alloc, &premises, &claim) {
        Ok(found) => match case.2 {
            Some(numbers) => Ok(are_numbers(&found, &numbers)),
            None => Ok(false),
        },
        Err(failure) => Ok(failure == MultipliersFailure::NotImplied && case.2.is_none()),
    }
}

fn are_first(alloc: Global, cases: &[Case]) -> Result<bool, Unfit> {
    for case in cases.iter() {
        if !is_first(alloc, case)? {
            return Ok(false);
        }
    }
    Ok(true)
}

#[test]
fn first_multipliers(rt: HostRuntime) {
    let cases = CASES;
    assert!(rt; are_first(rt.alloc(), &cases) == Ok(true));
}
