//! Whether all fits that an operation computes: its answers taken together.

ghost use Rattle.std.specs.{List.list_all, Prelude.◌≡◌, Prelude.◌≤◌, Prelude.IfOk};
ghost use Rattle.lra_program.specs.Overflow.{op_computes};
ghost use Rattle.lra_overflow_checks.specs.Crates.lra_analysis_spec.Fits.{BothJudged, OneJudged, OpFits};
ghost use Rattle.lra_overflow_checks.specs.Crates.lra_analysis_spec.LiveLimit.{most_live};
ghost use Rattle.lra_overflow_checks.specs.Crates.lra_analysis_spec.Operations.{lossy_operations};
ghost use Rattle.lra_overflow_checks.specs.Crates.lra_operations.TreeViews.{op_view};
ghost use Rattle.lra_operations_list.specs.TreeOperations.{op_ref_view};
ghost use Rattle.lra_overflow_checks.specs.Judged.{IsOpJudged};

use crate::computes::{condition_computes, giving_computes, operation_computes};
use crate::conditions::{Leaf, Surroundings, judge_condition};
use crate::expressions::{
    judge_arguments, judge_arguments_for, judge_element, judge_expression, judge_given,
};
use crate::questions::{Question, Verdict};
use lra_operations::Op;
use lra_operations_list::OpRef;
use lra_program::{Expr, Receiver};
use lra_transfer::{Domain, Exactness};
use std::alloc::{AllocError, Global};

/// Of operations it is reported whether all fits that they compute: of each operator, sign and conversion whether it
/// does.
pub struct OverflowCheck;

impl<D: Domain> Leaf<D> for OverflowCheck {
    type Told = bool;

    ghost both = { BothJudged D.abstraction };

    ghost one = { OneJudged D.abstraction };

    fn tell_both(
        around: Surroundings,
        left: &Expr,
        right: &Expr,
        value: &D,
        told: &mut Vec<bool>,
    ) -> Result<Exactness, AllocError> {
        judge_expression(around.alloc, around.base, value, left, told)?;
        judge_expression(around.alloc, around.base, value, right, told)?;
        Ok(Exactness::Exact)
    }

    fn tell_one(
        around: Surroundings,
        e: &Expr,
        value: &D,
        told: &mut Vec<bool>,
    ) -> Result<Exactness, AllocError> {
        judge_expression(around.alloc, around.base, value, e, told)?;
        Ok(Exactness::Exact)
    }
}

/// Whether all answers are that it fits.
fn all_fit(answers: &[bool]) -> bool
    ensures { result ≡ list_all (λ x. x) answers.now }
{
    'answers: for answer in answers {
        if !*answer {
            return false;
        }
    }
    true
}

/// The answers on a least change come after the others; what had to be made for them may be flagged.
fn answer_operation<D: Domain>(
    alloc: Global,
    op: &Op,
    value: &D,
    answers: &mut Vec<bool>,
) -> Result<Exactness, AllocError>
    requires { D.abstraction.dims value.now ≤ most_live }
    ensures { IfOk result (λ e. IsOpJudged D.abstraction (op_view op.now)
        value.now answers.old.items e answers.new.items) }
{
    match op {
        Op::Append(_) | Op::Fill(_) | Op::Havoc(_) | Op::TruncateTo(_) => Ok(Exactness::Exact),
        Op::StoreValue(base, receiver, e) => {
            judge_given(alloc, *base, value, *receiver, e, answers)?;
            Ok(Exactness::Exact)
        }
        Op::StoreElement(base, element, e) => {
            judge_element(alloc, *base, value, element, e, answers)?;
            Ok(Exactness::Exact)
        }
        Op::Push(base, arguments) => {
            judge_arguments(alloc, *base, value, arguments.as_slice(), answers)?;
            Ok(Exactness::Exact)
        }
        Op::PushFor(base, element, arguments) => {
            let arguments = arguments.as_slice();
            judge_arguments_for(alloc, *base, value, element, arguments, answers)?;
            Ok(Exactness::Exact)
        }
        Op::Test(base, condition, _) => {
            let around = Surroundings { alloc, base: *base };
            judge_condition::<D, OverflowCheck>(around, condition, value, answers)
        }
    }
}

/// The answers on what is done come after the others.
fn answer_doing<D: Domain>(
    alloc: Global,
    doing: OpRef<'_>,
    value: &D,
    answers: &mut Vec<bool>,
) -> Result<Exactness, AllocError>
    requires { D.abstraction.dims value.now ≤ most_live }
    ensures { IfOk result (λ e. IsOpJudged D.abstraction (op_ref_view doing.entry)
        value.now answers.old.items e answers.new.items) }
{
    match doing {
        OpRef::Change(op) => answer_operation(alloc, op, value, answers),
        OpRef::Condition(base, condition) => {
            judge_condition::<D, OverflowCheck>(
                Surroundings { alloc, base },
                condition,
                value,
                answers,
            )
        }
        OpRef::Value(base, e) => {
            judge_given(alloc, base, value, Receiver::nobody(), e, answers)?;
            Ok(Exactness::Exact)
        }
    }
}

impl<D: Domain> Question<D> for OverflowCheck {
    type Answer = bool;

    ghost asks = { op_computes };

    ghost told = { OpFits D.abstraction (lossy_operations D.abstraction) };

    fn is_asked(_alloc: Global, doing: OpRef<'_>) -> Result<bool, AllocError> {
        Ok(match doing {
            OpRef::Change(op) => operation_computes(op),
            OpRef::Condition(_, condition) => condition_computes(condition),
            OpRef::Value(_, e) => giving_computes(Receiver::nobody(), e),
        })
    }

    fn answer(alloc: Global, doing: OpRef<'_>, value: &D) -> Result<Verdict<bool>, AllocError> {
        let mut answers = Vec::new(alloc);
        let exactness = answer_doing(alloc, doing, value, &mut answers)?;
        Ok(Verdict {
            answer: all_fit(answers.as_slice()),
            exactness,
        })
    }
}
