//! The rows that thresholds give to a loop: around the comparisons of its conditions, and at the program's constants.

ghost use Rattle.std.specs.Prelude.{◌≡◌, ◌<◌, ◌^◌, ◌+ℤ◌, [], ◌∷◌, ◌++◌, suc, neg_ℤ, map, not, length, IfOk, OnOk, Some};
ghost use Rattle.std.specs.{Cmp.Lexicographic.pointwise, List.filter, Ordering.int_eq};
ghost use Rattle.lra_linearize.specs.Crates.lra_operations.TreeViews.{node_view, op_view, row, arm_view, arms_of};
ghost use Rattle.lra_linearize.specs.Crates.lra_program.ProgramViews.{all_of, cond_view, expr_view};
ghost use Rattle.lra_linearize.specs.Crates.{lra_linear_spec.Range.InRange, lra_linear_spec.declared.ConKind.ConKind};
ghost use Rattle.lra_linearize.specs.Crates.{lra_operations.Tree.Arms, lra_systems.LinearSystems.LinearSystem};
ghost use Rattle.lra_analysis_spec.specs.Thresholds.{condition_rows, is_among, has_small_numbers, op_rows, round_rows};
ghost use Rattle.lra_analysis_spec.specs.Thresholds.{row_against, rows_around, constant_rows_at, rows_in, rows_in_arms};
ghost use Rattle.lra_analysis_spec.specs.{GuardThresholds.inequalities, GuardThresholds.row_of, Linear.difference_form};
ghost use Rattle.lra_analysis_spec.specs.{Linear.variable_form, Thresholds.rows_once, Thresholds.threshold_rows};
ghost use Rattle.lra_linearize.specs.{GuardThresholds.HasMore, Thresholds.HasTaken};

use crate::comparisons::difference_of;
use crate::forms::unit_form;
use crate::guard_thresholds::push_negated;
use lra_analysis_spec::{ConKind, ConSys, LinExpr, Row};
use lra_base::NumberType;
use lra_operations::{Arm, Node, Op};
use lra_program::{Cond, Expr};
use std::alloc::{AllocError, Global};

/// No row with a number of a greater magnitude is given.
const GREATEST_NUMBER: u128 = 1 << 31;

// rows ----------------------------------------------------------------------------------------------------------------

/// Whether no number of the row is above 2^31 in magnitude.
fn has_small_numbers(row: &Row) -> bool
    ensures { result ≡ has_small_numbers row.now }
{
    let mut left = row.entries();
    while let Some((number, behind)) = left.split_first() {
        if number.unsigned_abs() > GREATEST_NUMBER {
            return false;
        }
        left = behind;
    }
    true
}

/// Whether the rows are the same.
fn are_equal(one: &Row, two: &Row) -> bool
    ensures { result ≡ pointwise int_eq one.now two.now }
{
    one.entries() == two.entries()
}

/// Whether the row is one of these.
fn is_among(rows: &[Row], row: &Row) -> bool
    ensures { result ≡ is_among rows.now row.now }
{
    let mut left = rows;
    while let Some((other, behind)) = left.split_first() {
        if are_equal(other, row) {
            return true;
        }
        left = behind;
    }
    false
}

/// The row comes after the others, unless it is one of them, or has too large a number.
fn take_in(rows: &mut ConSys, row: Row) -> Result<(), AllocError>
    requires { length row ≡ suc rows.old.dims }
    ensures { OnOk result (HasTaken rows.old rows.new (row ∷ [])) }
{
    if has_small_numbers(&row) && !is_among(rows.rows(), &row) {
        rows.push(row, ConKind::Ge)?;
    }
    Ok(())
}

/// The row comes after the others, unless it is one of the loop's own.
fn add_new(own: &ConSys, rows: &mut ConSys, row: Row) -> Result<(), AllocError>
    requires { length row ≡ suc rows.old.dims }
    ensures { OnOk result (HasMore rows.old rows.new
        (filter (λ r. not (is_among own.now.rows r)) (row ∷ []))) }
{
    if !is_among(own.rows(), &row) {
        rows.push(row, ConKind::Ge)?;
    }
    Ok(())
}

/// The number less another comes last.
fn push_less(numbers: &mut Vec<i128>, number: &i64, less: &i64) -> Result<(), AllocError>
    ensures items { OnOk result (numbers.new.items ≡ numbers.old.items ++ (number.now +ℤ neg_ℤ less.now) ∷ []) }
    ensures range { InRange (number.now +ℤ neg_ℤ less.now) }
{
    numbers.push(*number as i128 + -(*less as i128))?;
    Ok(())
}

/// The number times -1, with another added, comes last.
fn push_against(numbers: &mut Vec<i128>, number: &i64, more: &i64) -> Result<(), AllocError>
    ensures items { OnOk result (numbers.new.items ≡ numbers.old.items ++ (neg_ℤ number.now +ℤ more.now) ∷ []) }
    ensures range { InRange (neg_ℤ number.now +ℤ more.now) }
{
    numbers.push(-(*number as i128) + *more as i128)?;
    Ok(())
}

/// The number comes last.
fn push_number(numbers: &mut Vec<i128>, number: &i64) -> Result<(), AllocError>
    ensures items { OnOk result (numbers.new.items ≡ numbers.old.items ++ number.now ∷ []) }
    ensures range { InRange number.now }
{
    numbers.push(*number as i128)?;
    Ok(())
}

/// The row `form - less >= 0`.
fn row_less(alloc: Global, form: &LinExpr, less: &i64) -> Result<Row, AllocError>
    ensures { IfOk result (λ r. r ≡ row_of form.now (neg_ℤ less.now)) }
{
    let mut numbers = Vec::new(alloc);
    push_less(&mut numbers, &form.constant(), less)?;
    let mut left = form.coefficients();
    while let Some((coefficient, behind)) = left.split_first() {
        push_number(&mut numbers, coefficient)?;
        left = behind;
    }
    let row = Row::from_slice(alloc, numbers.as_slice())?;
    Ok(row)
}

/// The row `more - form >= 0`.
fn row_against(alloc: Global, form: &LinExpr, more: &i64) -> Result<Row, AllocError>
    ensures { IfOk result (λ r. r ≡ row_against form.now more.now) }
{
    let mut numbers = Vec::new(alloc);
    push_against(&mut numbers, &form.constant(), more)?;
    let mut left = form.coefficients();
    while let Some((coefficient, behind)) = left.split_first() {
        push_negated(&mut numbers, coefficient)?;
        left = behind;
    }
    let row = Row::from_slice(alloc, numbers.as_slice())?;
    Ok(row)
}

// conditions ----------------------------------------------------------------------------------------------------------

/// The rows `d - less >= 0` and `more - d >= 0` are added.
fn take_both(
    alloc: Global,
    d: &LinExpr,
    less: &i64,
    more: &i64,
    rows: &mut ConSys,
) -> Result<(), AllocError>
    requires { length d.now.coefficients ≡ rows.old.dims }
    ensures { OnOk result (HasTaken rows.old rows.new (row_of d.now (neg_ℤ less.now) ∷
        row_against d.now more.now ∷ [])) }
{
    take_in(rows, row_less(alloc, d, less)?)?;
    take_in(rows, row_against(alloc, d, more)?)
}

/// The rows around a difference are added.
fn take_around(alloc: Global, d: &LinExpr, rows: &mut ConSys) -> Result<(), AllocError>
    requires { length d.now.coefficients ≡ rows.old.dims }
    ensures { OnOk result (HasTaken rows.old rows.new (rows_around (Some d.now))) }
{
    take_both(alloc, d, &1, &-1, rows)?;
    take_both(alloc, d, &0, &0, rows)?;
    take_both(alloc, d, &-1, &1, rows)
}

/// The rows around a comparison are added; none if its difference isn't linear, or a variable doesn't live.
fn take_comparison(
    alloc: Global,
    base: usize,
    left: &Expr,
    right: &Expr,
    rows: &mut ConSys,
) -> Result<(), AllocError>
    requires { rows.old.dims < 2 ^ 62 }
    ensures { OnOk result (HasTaken rows.old rows.new (rows_around
        (difference_form rows.old.dims base (expr_view left.now) (expr_view right.now)))) }
{
    let Some(d) = difference_of(alloc, rows.dims(), base, left, right)? else {
        return Ok(());
    };
    take_around(alloc, &d, rows)
}

/// The rows around the comparisons of a condition are added, in text order.
#[cycle(condition)]
fn take_condition(
    alloc: Global,
    base: usize,
    condition: &Cond,
    rows: &mut ConSys,
) -> Result<(), AllocError>
    requires { rows.old.dims < 2 ^ 62 }
    ensures { OnOk result (HasTaken rows.old rows.new (condition_rows rows.old.dims base (cond_view condition.now))) }
{
    match condition {
        Cond::Compare(_, left, right) => take_comparison(alloc, base, left, right, rows),
        Cond::Nonzero(e) => {
            let zero = Expr::Literal(NumberType::Int, 0);
            take_comparison(alloc, base, e, &zero, rows)
        }
        Cond::Opposite(inner) => take_condition(alloc, base, inner, rows),
        Cond::All(first, rest) => take_chain(alloc, base, first, rest.as_slice(), rows),
        Cond::Any(first, rest) => take_chain(alloc, base, first, rest.as_slice(), rows),
    }
}

/// The rows around the comparisons of a chain of conditions are added, for `&&` as for `||`.
#[cycle(condition)]
fn take_chain(
    alloc: Global,
    base: usize,
    first: &Cond,
    rest: &[Cond],
    rows: &mut ConSys,
) -> Result<(), AllocError>
    requires { rows.old.dims < 2 ^ 62 }
    ensures { OnOk result (HasTaken rows.old rows.new (condition_rows rows.old.dims base
        (all_of (cond_view first.now) (map cond_view rest.now)))) }
{
    take_condition(alloc, base, first, rows)?;
    'rest: for next in rest {
        take_condition(alloc, base, next, rows)?;
    }
    Ok(())
}

// trees ---------------------------------------------------------------------------------------------------------------

/// The rows around the condition of a change, if it is a test, are added.
fn take_op(alloc: Global, op: &Op, rows: &mut ConSys) -> Result<(), AllocError>
    requires { rows.old.dims < 2 ^ 62 }
    ensures { OnOk result (HasTaken rows.old rows.new (op_rows rows.old.dims (op_view op.now))) }
{
    match op {
        Op::Test(base, condition, _) => take_condition(alloc, *base, condition, rows),
        _ => Ok(()),
    }
}

/// The rows around the conditions of a tree are added, in text order.
#[cycle(tree)]
fn take_tree(alloc: Global, node: &Node, rows: &mut ConSys) -> Result<(), AllocError>
    requires { rows.old.dims < 2 ^ 62 }
    ensures { OnOk result (HasTaken rows.old rows.new (rows_in rows.old.dims (node_view node.now))) }
{
    match node {
        Node::Act(_, op) => take_op(alloc, op, rows),
        Node::Check(_, base, condition) => take_condition(alloc, *base, condition, rows),
        Node::Seq(trees, last) => take_trees(alloc, trees.as_slice(), last, rows),
        Node::Choose(_, base, condition, yes, no) => {
            take_condition(alloc, *base, condition, rows)?;
            take_tree(alloc, yes, rows)?;
            take_tree(alloc, no, rows)
        }
        Node::Iterate(_, base, condition, body) => {
            take_condition(alloc, *base, condition, rows)?;
            take_round(alloc, body, rows)
        }
        Node::Catch(_, _, body) => take_tree(alloc, body, rows),
        Node::Select(_, _, _, arms) => take_arms(alloc, arms.as_slice(), rows),
        _ => Ok(()),
    }
}

/// The rows around the conditions in a `switch`'s arms are added; its labels have none.
#[cycle(tree)]
fn take_arms(alloc: Global, arms: &[Arm], rows: &mut ConSys) -> Result<(), AllocError>
    requires { rows.old.dims < 2 ^ 62 }
    ensures { OnOk result (HasTaken rows.old rows.new (rows_in_arms rows.old.dims (arms_of
        (map arm_view arms.now)))) }
{
    'arms: for arm in arms {
        take_arm(alloc, arm, rows)?;
    }
    Ok(())
}

/// The rows around the conditions of one arm are added.
#[cycle(tree)]
fn take_arm(alloc: Global, arm: &Arm, rows: &mut ConSys) -> Result<(), AllocError>
    requires { rows.old.dims < 2 ^ 62 }
    ensures dims { OnOk result (rows.new.dims ≡ rows.old.dims) }
    ensures taken { (behind : Arms) (all : LinearSystem ConKind) →
        OnOk result (HasTaken rows.new all
        (rows_in_arms rows.new.dims behind) → HasTaken rows.old all
        (rows_in_arms rows.old.dims (arm_view arm.now behind))) }
{
    match arm {
        Arm::Entry(_) => Ok(()),
        Arm::Tree(tree) => take_tree(alloc, tree, rows),
    }
}

/// The rows around the conditions of trees are added, one tree after the other, then those of the last.
#[cycle(tree)]
fn take_trees(
    alloc: Global,
    trees: &[Node],
    last: &Node,
    rows: &mut ConSys,
) -> Result<(), AllocError>
    requires { rows.old.dims < 2 ^ 62 }
    ensures { OnOk result (HasTaken rows.old rows.new (rows_in rows.old.dims
        (row (map node_view trees.now) (node_view last.now)))) }
{
    'trees: for tree in trees {
        take_tree(alloc, tree, rows)?;
    }
    take_tree(alloc, last, rows)
}

/// The rows around the conditions of a loop's round are added, in text order: the step stands before the body in the
/// text, and after it in the tree.
#[cycle(tree)]
fn take_round(alloc: Global, body: &Node, rows: &mut ConSys) -> Result<(), AllocError>
    requires { rows.old.dims < 2 ^ 62 }
    ensures { OnOk result (HasTaken rows.old rows.new (round_rows rows.old.dims (node_view body.now))) }
{
    match body {
        Node::Seq(trees, last) => match trees.as_slice().split_first() {
            None => take_round(alloc, last, rows),
            Some((inner, step)) => {
                take_trees(alloc, step, last, rows)?;
                take_tree(alloc, inner, rows)
            }
        },
        _ => take_tree(alloc, body, rows),
    }
}

// the whole -----------------------------------------------------------------------------------------------------------

/// The rows around a loop's own condition and around those in it, each once.
fn own_rows(
    alloc: Global,
    live: usize,
    base: usize,
    condition: &Cond,
    body: &Node,
) -> Result<ConSys, AllocError>
    requires { live < 2 ^ 62 }
    ensures { IfOk result (λ s. s ≡ inequalities live (rows_once (condition_rows live base (cond_view condition.now) ++
        round_rows live (node_view body.now)))) }
{
    let mut rows = ConSys::new(alloc, live);
    take_condition(alloc, base, condition, &mut rows)?;
    take_round(alloc, body, &mut rows)?;
    Ok(rows)
}

/// The rows of a variable at one constant come after the others.
fn add_constant(
    alloc: Global,
    own: &ConSys,
    variable: &LinExpr,
    constant: &i64,
    rows: &mut ConSys,
) -> Result<(), AllocError>
    requires { length variable.now.coefficients ≡ rows.old.dims }
    ensures { OnOk result (HasMore rows.old rows.new (filter (λ r. not (is_among own.now.rows r))
        (row_of variable.now (neg_ℤ constant.now) ∷ row_against variable.now constant.now ∷ []))) }
{
    add_new(own, rows, row_less(alloc, variable, constant)?)?;
    add_new(own, rows, row_against(alloc, variable, constant)?)
}

/// The rows of a variable at the constants come after the others.
fn add_constants(
    alloc: Global,
    own: &ConSys,
    place: usize,
    constants: &[i64],
    rows: &mut ConSys,
) -> Result<(), AllocError>
    requires { rows.old.dims < 2 ^ 62 }
    ensures { OnOk result (HasMore rows.old rows.new (filter (λ r. not (is_among own.now.rows r))
        (constant_rows_at rows.old.dims constants.now place))) }
{
    let variable = unit_form(alloc, rows.dims(), place)?;
    let mut left = constants;
    'constants: while let Some((constant, behind)) = left.split_first() {
        add_constant(alloc, own, &variable, constant, rows)?;
        left = behind;
    }
    Ok(())
}

/// The rows that thresholds give to a loop's head, over so many live variables: those around its own condition and
/// around each condition in its step and its body, each once; then those of each variable at the program's constants
/// that aren't among these.
pub fn thresholds_of(
    alloc: Global,
    live: usize,
    base: usize,
    condition: &Cond,
    body: &Node,
    constants: &[i64],
) -> Result<ConSys, AllocError>
    requires { live < 2 ^ 62 }
    ensures { IfOk result (λ s. s ≡ threshold_rows constants.now live base (cond_view condition.now)
        (node_view body.now)) }
{
    let own = own_rows(alloc, live, base, condition, body)?;
    let mut rows = own.copy()?;
    'variables: for place in 0..live {
        add_constants(alloc, &own, place, constants, &mut rows)?;
    }
    Ok(rows)
}
