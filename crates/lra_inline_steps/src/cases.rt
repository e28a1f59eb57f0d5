//! The labels and the statements of a `switch`.

ghost use Rattle.std.specs.Prelude.{◌≡◌, ◌<◌, ℕ, List, map, IfOk};
ghost use Rattle.lra_program.specs.Program as resolved;
ghost use Rattle.lra_program.specs.Sites as points;
ghost use Rattle.lra_program.specs.ProgramViews.{expr_view, case_view, cases_of};
ghost use Rattle.lra_operations.specs.TreeViews.{arm_view};
ghost use Rattle.lra_inline_steps.specs.Stack.{InlineTask, a_stmt, inline_task, SwitchLoop, PassesLabels, from_next};
ghost use Rattle.lra_inline_steps.specs.Stack.{IsAfterFrame, InlineStepLeads};
ghost use Rattle.lra_inline_steps.specs.{Limits.OnLimit, Steps.next_left, Steps.kind_left, Steps.cases_left};
ghost use Rattle.lra_inline_steps.specs.declared.stack.InlineContext.TheVariants as place;

use crate::frame::Frame;
use crate::points::InlineError;
use crate::stack::{CaseRow, InlineContext, InlineFrame, Next, NextCase, Part, Written, close};
use lra_operations::Arm;
use lra_operations::forms::{add_arm, selection};
use lra_program::CaseItem;
use std::alloc::{AllocError, Global};

/// The labels that come next, written after the others; then the statement after them, if there is one.
fn pass_labels<'a>(
    arms: &mut Vec<Arm>,
    cases: &'a [CaseItem],
) -> Result<Option<NextCase<'a>>, AllocError>
    ensures { IfOk result (λ next. PassesLabels arms.old.items arms.new.items cases.now
        (from_next next)) }
{
    let mut rest = cases;
    'labels: loop {
        let Some((case, behind)) = rest.split_first() else {
            return Ok(None);
        };
        match case {
            CaseItem::Label(label) => add_arm(arms, Arm::Entry(*label))?,
            CaseItem::Stated(stmt) => return Ok(Some(NextCase { stmt, rest: behind })),
        }
        rest = behind;
    }
}

/// What is left of a `switch`, after what is written of it: a statement opens in it, or the whole is written.
pub fn next_case<'a>(alloc: Global, frame: Frame, row: CaseRow<'a>) -> Result<Next<'a>, InlineError>
    ensures leads { (P : resolved.Program) (path : List ℕ) (S V : List points.Site) (at : ℕ)
        (all : resolved.Cases)
        → SwitchLoop P path frame S row.entry.point at (expr_view row.entry.value.now) all
        (cases_of (map case_view row.entry.rest.now)) (map arm_view row.entry.arms.items) V
        → IfOk result (λ next. InlineStepLeads P
        (inline_task (a_stmt (resolved.switch at (expr_view row.entry.value.now) all)) path frame S) next path V) }
    ensures memory { OnLimit result (λ _. ⊥) }
    ensures falls { (P : resolved.Program) → IfOk result (λ next. next_left P next
        < cases_left P frame row.entry.rest.now) }
{
    let CaseRow {
        point,
        value,
        mut arms,
        rest,
    } = row;
    let next = pass_labels(&mut arms, rest)?;
    match next {
        None => close(selection(alloc, point, frame.base, value, arms), frame.live),
        Some(found) => {
            let place = InlineContext::Cases(CaseRow {
                point,
                value,
                arms,
                rest: found.rest,
            });
            let inside = Frame {
                breaks: Some(frame.live),
                ..frame
            };
            Ok(Next::Opens(InlineFrame { frame, place }, inside, Part::Stmt(found.stmt)))
        }
    }
}

/// After one of the statements: it comes after what is written before it.
pub fn go_on_cases<'a>(
    alloc: Global,
    frame: Frame,
    row: CaseRow<'a>,
    stmt: Written,
) -> Result<Next<'a>, InlineError>
    ensures leads { (P : resolved.Program) (whole under : InlineTask) (path : List ℕ)
        (V : List points.Site) → IsAfterFrame P whole under
        (record { frame = frame; place = place.Cases row.entry }) stmt path V
        → IfOk result (λ next. InlineStepLeads P whole next path V) }
    ensures memory { OnLimit result (λ _. ⊥) }
    ensures falls { (P : resolved.Program) → IfOk result (λ next. next_left P next
        < kind_left P frame (place.Cases row.entry)) }
{
    let mut row = row;
    add_arm(&mut row.arms, Arm::Tree(stmt.node))?;
    next_case(alloc, frame, row)
}
