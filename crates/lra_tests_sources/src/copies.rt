//! Copies of resolved expressions and conditions.

use lra_base::{NumberType, Operator};
use lra_program::{Cond, Expr, Operation, pair_arguments};
use std::test::Fail;

/// Whether it is a literal of this type and value.
fn is_literal(e: &Expr, (number_type, value): (NumberType, u64)) -> bool {
    matches!(e, Expr::Literal(t, n) if *t == number_type && *n == value)
}

/// Whether it is the sum of two literals.
fn is_sum(e: &Expr, left: (NumberType, u64), right: (NumberType, u64)) -> bool {
    match e {
        Expr::Chain(first, rest) => match rest.as_slice() {
            [only] => is_literal(first, left) && is_literal(&only.operand, right),
            _ => false,
        },
        _ => false,
    }
}

fn is_opposed_input(c: &Cond) -> bool {
    match c {
        Cond::Opposite(inner) => matches!(&**inner, Cond::Nonzero(Expr::Input)),
        _ => false,
    }
}

#[test]
fn copies_keep_the_literals_and_their_types(rt: HostRuntime) -> Result<(), Fail> {
    let mut rest = Vec::new(rt.alloc());
    rest.push(Operation {
        operator: Operator::Plus,
        operand: Expr::Literal(NumberType::Long, 3),
    })?;
    let sum = Expr::Chain(
        Box::new(rt.alloc(), Expr::Literal(NumberType::Int, 2))?,
        rest,
    );
    let copies = pair_arguments(rt.alloc(), &[NumberType::Long], &[sum])?;
    assert_eq!(rt; copies.len(), 1);
    assert!(rt; copies[0].number_type == NumberType::Long);
    assert!(rt;
        is_sum(
            &copies[0].value,
            (NumberType::Int, 2),
            (NumberType::Long, 3)
        )
    );
    Ok(())
}

#[test]
fn copies_keep_the_opposites(rt: HostRuntime) -> Result<(), Fail> {
    let opposed = Cond::Opposite(Box::new(rt.alloc(), Cond::Nonzero(Expr::Input))?);
    let copy = opposed.copy(rt.alloc())?;
    assert!(rt; is_opposed_input(&copy));
    Ok(())
}
