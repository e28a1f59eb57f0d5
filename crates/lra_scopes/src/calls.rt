//! Calls, and what variables get.

ghost use Rattle.std.specs.Prelude.{◌≡◌, ◌||◌, ◌&&◌, not, nat_eq, ◌∷◌, ◌++◌, [], map, length, flat_map, Option, Some};
ghost use Rattle.std.specs.Prelude.{None, option_map, IfOk};
ghost use Rattle.lra_base.specs.{OperatorViews.operator_view, declared.number_types.NumberType.TheVariants.Int};
ghost use Rattle.lra_program.specs.Program.{assign as assign_stmt, binary, literal, read, value};
ghost use Rattle.lra_program.specs.ProgramViews.{variable_view, expr_view, call_view, rvalue_view, given_view};
ghost use Rattle.lra_program.specs.ProgramViews.{stmt_view};
ghost use Rattle.lra_syntax.specs.Views.{step_view, expr_view as tree_expr_view, call_view as tree_call_view};
ghost use Rattle.lra_syntax.specs.{Functions.function_named, Views.rvalue_view as tree_rvalue_view, Views.assign_view};
ghost use Rattle.lra_resolution_spec.specs.NameFaults.{use_faults, expr_faults, called_faults, call_faults};
ghost use Rattle.lra_resolution_spec.specs.NameFaults.{rvalue_faults, given_faults, assign_faults};
ghost use Rattle.lra_resolution_spec.specs.Resolve.{variable, function_place, resolve_expr, resolve_call};
ghost use Rattle.lra_resolution_spec.specs.Resolve.{resolve_rvalue, resolve_given, resolve_assign, step_operator};
ghost use Rattle.lra_scopes.specs.Calls.{functions_at, argument_faults, resolve_argument};
ghost use Rattle.lra_scopes.specs.Outcome.{StopsAtFirstFault};

use crate::errors::refuse;
use crate::expressions::{resolve_element, resolve_expr, resolve_variable};
use crate::scopes::Scope;
use crate::signatures::{Functions, Signature};
use lra_base::{Cause, NumberType, Operator, SourceError};
use lra_program::{Operation, Variable};
use lra_syntax::{Assign, Call, Expr, Identifier, Rvalue, Step};
use std::alloc::{AllocError, Global};

/// Whether a function can't be called so.
fn is_bad_call(signature: Signature, count: usize, used: bool) -> bool
    ensures { result ≡ not (nat_eq signature.parameters count) || (used && not signature.has_result) }
{
    signature.parameters != count || (used && !signature.has_result)
}

/// The place of the called function, if it has so many parameters, and a result if one is used.
fn resolve_called(
    functions: &Functions<'_>,
    name: &Identifier,
    count: usize,
    used: bool,
) -> Result<usize, SourceError>
    ensures told { StopsAtFirstFault
        (called_faults (function_named (functions_at functions.now) name.now.word) name.now count
        used) result }
    ensures found { IfOk result (λ p. p ≡ function_place (functions_at functions.now) name.now.word) }
{
    match functions.find(&name.word) {
        None => refuse(Cause::UnknownName, name.place),
        Some(signature) => {
            if is_bad_call(signature, count, used) {
                refuse(Cause::BadCall, name.place)
            } else {
                Ok(signature.place)
            }
        }
    }
}

fn resolve_arguments(
    alloc: Global,
    scope: &Scope,
    arguments: &[Expr],
) -> Result<Vec<lra_program::Expr>, SourceError>
    ensures told { StopsAtFirstFault (flat_map (argument_faults scope.now) arguments.now) result }
    ensures found { IfOk result (λ v. map expr_view v.items ≡ map (resolve_argument scope.now) arguments.now) }
{
    let mut values = Vec::new(alloc);
    'arguments: for argument in arguments {
        let value = resolve_expr(alloc, scope, argument)?;
        values.push(value)?;
    }
    Ok(values)
}

/// A call under a label, whose result is used or not.
///
/// Refused at the first fault, with the causes of `resolve_rvalue`; a missing result is one only if it is used.
#[tactic(auto, using(crate::proofs::CallLaws::call_rules))]
pub fn resolve_call(
    alloc: Global,
    functions: &Functions<'_>,
    scope: &Scope,
    label: usize,
    call: &Call,
    used: bool,
) -> Result<lra_program::Call, SourceError>
    ensures told { StopsAtFirstFault (call_faults (functions_at functions.now) scope.now (tree_call_view call.now) used)
        result }
    ensures found { IfOk result (λ c. call_view c ≡ resolve_call (functions_at functions.now) scope.now label
        (tree_call_view call.now)) }
{
    let function = resolve_called(functions, &call.name, call.arguments.items.len(), used)?;
    let arguments = resolve_arguments(alloc, scope, &call.arguments.items)?;
    Ok(lra_program::Call {
        label,
        function,
        arguments,
    })
}

/// What is written into a variable or returned: a value, or the result of a call, which stands under the label.
///
/// Refused at the first fault: `UnknownName` if a name isn't known, `NotArray` if an array stands for a scalar or
/// a scalar for an array, `BadCall` if the called function has another number of parameters or no result. `Memory`
/// if memory runs out.
pub fn resolve_rvalue(
    alloc: Global,
    functions: &Functions<'_>,
    scope: &Scope,
    label: usize,
    rvalue: &Rvalue,
) -> Result<lra_program::Rvalue, SourceError>
    ensures told { StopsAtFirstFault
        (rvalue_faults (functions_at functions.now) scope.now (tree_rvalue_view rvalue.now)) result }
    ensures found { IfOk result (λ e. rvalue_view e ≡ resolve_rvalue (functions_at functions.now) scope.now label
        (tree_rvalue_view rvalue.now)) }
{
    match rvalue {
        Rvalue::Value(expr) => {
            let value = resolve_expr(alloc, scope, expr)?;
            Ok(lra_program::Rvalue::Value(value))
        }
        Rvalue::Result(call) => {
            let call = resolve_call(alloc, functions, scope, label, call, true)?;
            Ok(lra_program::Rvalue::Result(call))
        }
    }
}

/// What a declarator gives its variable, or a `return` gives, if anything.
///
/// Refused at the first fault, as by `resolve_rvalue`. `Memory` if memory runs out.
pub fn resolve_given(
    alloc: Global,
    functions: &Functions<'_>,
    scope: &Scope,
    label: usize,
    rvalue: &Option<Rvalue>,
) -> Result<Option<lra_program::Rvalue>, SourceError>
    ensures told { StopsAtFirstFault (given_faults (functions_at functions.now) scope.now
        (option_map tree_rvalue_view rvalue.now)) result }
    ensures found { IfOk result (λ e. given_view e ≡ resolve_given (functions_at functions.now) scope.now label
        (option_map tree_rvalue_view rvalue.now)) }
{
    match rvalue {
        None => Ok(None),
        Some(rvalue) => {
            let rvalue = resolve_rvalue(alloc, functions, scope, label, rvalue)?;
            Ok(Some(rvalue))
        }
    }
}

/// The variable's value, an operator and an operand.
fn build_update(
    alloc: Global,
    variable: Variable,
    operator: Operator,
    operand: lra_program::Expr,
) -> Result<lra_program::Rvalue, AllocError>
    ensures { IfOk result (λ e. rvalue_view e ≡ value (binary (operator_view operator) (read (variable_view variable))
        (expr_view operand))) }
{
    let mut rest = Vec::new(alloc);
    rest.push(Operation { operator, operand })?;
    let first = Box::new(alloc, lra_program::Expr::Read(variable))?;
    Ok(lra_program::Rvalue::Value(lra_program::Expr::Chain(first, rest)))
}

fn step_operator(step: Step) -> Operator
    ensures { operator_view result ≡ step_operator (step_view step) }
{
    match step {
        Step::Increment => Operator::Plus,
        Step::Decrement => Operator::Minus,
    }
}

/// `x++` and `++x` alike: one more, or one less.
fn build_step(
    alloc: Global,
    variable: Variable,
    step: Step,
) -> Result<lra_program::Rvalue, AllocError>
    ensures { IfOk result (λ e. rvalue_view e ≡ value (binary (step_operator (step_view step))
        (read (variable_view variable)) (literal Int 1))) }
{
    build_update(
        alloc,
        variable,
        step_operator(step),
        lra_program::Expr::Literal(NumberType::Int, 1),
    )
}

/// `x = e`
#[tactic(auto, using(crate::proofs::FirstFaults::telling_rules))]
fn resolve_set(
    alloc: Global,
    functions: &Functions<'_>,
    scope: &Scope,
    label: usize,
    x: &Identifier,
    rvalue: &Rvalue,
) -> Result<lra_program::Stmt, SourceError>
    ensures told { StopsAtFirstFault (use_faults scope.now x.now ++ rvalue_faults (functions_at functions.now) scope.now
        (tree_rvalue_view rvalue.now)) result }
    ensures found { IfOk result (λ s. stmt_view s ≡ assign_stmt label (variable scope.now x.now)
        (resolve_rvalue (functions_at functions.now) scope.now label (tree_rvalue_view rvalue.now))) }
{
    let variable = resolve_variable(scope, x)?;
    let rvalue = resolve_rvalue(alloc, functions, scope, label, rvalue)?;
    Ok(lra_program::Stmt::Assign(label, variable, rvalue))
}

/// `x op= e`
#[tactic(auto, using(crate::proofs::FirstFaults::telling_rules))]
fn resolve_update(
    alloc: Global,
    scope: &Scope,
    label: usize,
    x: &Identifier,
    operator: Operator,
    expr: &Expr,
) -> Result<lra_program::Stmt, SourceError>
    ensures told { StopsAtFirstFault (use_faults scope.now x.now ++ expr_faults scope.now (tree_expr_view expr.now))
        result }
    ensures found { IfOk result (λ s. stmt_view s ≡ assign_stmt label (variable scope.now x.now)
        (value (binary (operator_view operator) (read (variable scope.now x.now))
        (resolve_expr scope.now (tree_expr_view expr.now))))) }
{
    let variable = resolve_variable(scope, x)?;
    let operand = resolve_expr(alloc, scope, expr)?;
    let rvalue = build_update(alloc, variable, operator, operand)?;
    Ok(lra_program::Stmt::Assign(label, variable, rvalue))
}

/// `x++`, `x--`, and with the sign in front.
fn resolve_increment(
    alloc: Global,
    scope: &Scope,
    label: usize,
    x: &Identifier,
    step: Step,
) -> Result<lra_program::Stmt, SourceError>
    ensures told { StopsAtFirstFault (use_faults scope.now x.now) result }
    ensures found { IfOk result (λ s. stmt_view s ≡ assign_stmt label (variable scope.now x.now)
        (value (binary (step_operator (step_view step)) (read (variable scope.now x.now)) (literal Int 1)))) }
{
    let variable = resolve_variable(scope, x)?;
    let rvalue = build_step(alloc, variable, step)?;
    Ok(lra_program::Stmt::Assign(label, variable, rvalue))
}

/// An assignment under its label: `x += e` and `x++` read `x` first.
///
/// Refused at the first fault, that of `x` before those of its index and of the rvalue, with the causes of
/// `resolve_rvalue`. `Memory` if memory runs out.
pub fn resolve_assign(
    alloc: Global,
    functions: &Functions<'_>,
    scope: &Scope,
    label: usize,
    assign: &Assign,
) -> Result<lra_program::Stmt, SourceError>
    ensures told { StopsAtFirstFault (assign_faults (functions_at functions.now) scope.now (assign_view assign.now))
        result }
    ensures found { IfOk result (λ s. stmt_view s ≡ resolve_assign (functions_at functions.now) scope.now label
        (assign_view assign.now)) }
{
    match assign {
        Assign::Set(x, rvalue) => resolve_set(alloc, functions, scope, label, x, rvalue),
        Assign::SetElement(x, index, rvalue) => {
            let element = resolve_element(alloc, scope, x, index)?;
            let rvalue = resolve_rvalue(alloc, functions, scope, label, rvalue)?;
            Ok(lra_program::Stmt::Write(label, element, rvalue))
        }
        Assign::Update(x, operator, expr) => {
            resolve_update(alloc, scope, label, x, *operator, expr)
        }
        Assign::After(x, step) => resolve_increment(alloc, scope, label, x, *step),
        Assign::Before(_, step, x) => resolve_increment(alloc, scope, label, x, *step),
    }
}
