//! Whether an operation computes something: an operator, a sign or a conversion from 64 bits to 32.

ghost use Rattle.std.specs.Prelude.{◌≡◌, ◌∷◌, map};
ghost use Rattle.lra_program.specs.Overflow.{arguments_compute, cond_computes, expr_computes, given_computes};
ghost use Rattle.lra_program.specs.ProgramViews.{all_of, argument_view, cond_view, expr_view};
ghost use Rattle.lra_program.specs.{Overflow.op_computes, Program.type_of, Receivers.parameter_of};
ghost use Rattle.lra_overflow_checks.specs.Crates.lra_operations.TreeViews.{op_view};
ghost use Rattle.lra_overflow_checks.specs.Judged.{some_computes};

use lra_operations::Op;
use lra_program::{Argument, Cond, Expr, NumberType, Receiver};

/// The type of an expression's value.
pub fn type_of(e: &Expr) -> NumberType
    ensures { result ≡ type_of (expr_view e.now) }
{
    match e {
        Expr::Literal(number_type, _) => *number_type,
        Expr::Read(variable) => variable.number_type,
        Expr::Input => NumberType::Long,
        Expr::Negate(inner) => type_of(inner),
        Expr::Chain(first, operations) => {
            let mut number_type = type_of(first);
            'operations: for operation in operations {
                number_type = number_type.wider(type_of(&operation.operand));
            }
            number_type
        }
        Expr::Element(array, _, _) => array.number_type,
    }
}

/// Whether an expression has an operator or a sign.
fn expression_computes(e: &Expr) -> bool
    ensures { result ≡ expr_computes (expr_view e.now) }
{
    match e {
        Expr::Literal(_, _) | Expr::Read(_) | Expr::Input => false,
        Expr::Negate(_) => true,
        Expr::Chain(first, operations) => !operations.is_empty() || expression_computes(first),
        Expr::Element(_, _, index) => expression_computes(index),
    }
}

/// Whether a condition has one.
#[cycle(computing)]
pub fn condition_computes(condition: &Cond) -> bool
    ensures { result ≡ cond_computes (cond_view condition.now) }
{
    match condition {
        Cond::Compare(_, left, right) => expression_computes(left) || expression_computes(right),
        Cond::Nonzero(e) => expression_computes(e),
        Cond::Opposite(inner) => condition_computes(inner),
        Cond::All(first, rest) => condition_computes(first) || some_computes(rest.as_slice()),
        Cond::Any(first, rest) => condition_computes(first) || some_computes(rest.as_slice()),
    }
}

/// Whether one of the conditions has one.
#[cycle(computing)]
fn some_computes(conditions: &[Cond]) -> bool
    ensures { result ≡ some_computes (map cond_view conditions.now) }
{
    'conditions: for condition in conditions {
        if condition_computes(condition) {
            return true;
        }
    }
    false
}

/// Whether something is computed when a value is given to the receiver.
pub fn giving_computes(receiver: Receiver, e: &Expr) -> bool
    ensures { result ≡ given_computes receiver (expr_view e.now) }
{
    expression_computes(e) || receiver.converts(type_of(e))
}

/// What a parameter of this type is to the value that it gets.
pub fn parameter(number_type: NumberType) -> Receiver
    ensures { result ≡ parameter_of number_type }
{
    Receiver::nobody().result_receiver(Some(number_type))
}

/// Whether something is computed when arguments are given.
fn arguments_compute(arguments: &[Argument]) -> bool
    ensures { result ≡ arguments_compute (map argument_view arguments.now) }
{
    let mut left = arguments;
    while let Some((argument, behind)) = left.split_first() {
        if giving_computes(parameter(argument.number_type), &argument.value) {
            return true;
        }
        left = behind;
    }
    false
}

/// Whether the operation computes something.
pub fn operation_computes(op: &Op) -> bool
    ensures { result ≡ op_computes (op_view op.now) }
{
    match op {
        Op::Append(_) | Op::Fill(_) | Op::Havoc(_) | Op::TruncateTo(_) => false,
        Op::StoreValue(_, receiver, e) => giving_computes(*receiver, e),
        Op::StoreElement(_, element, e) => {
            let receiver = Receiver::waiting(element.array);
            expression_computes(&element.index) || giving_computes(receiver, e)
        }
        Op::Push(_, arguments) => arguments_compute(arguments),
        Op::PushFor(_, element, arguments) => {
            expression_computes(&element.index) || arguments_compute(arguments)
        }
        Op::Test(_, condition, _) => condition_computes(condition),
    }
}
