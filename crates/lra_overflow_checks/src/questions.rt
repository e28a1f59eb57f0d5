//! What is asked of the operations of a whole program, whatever it is: each is answered by the value at its point.

ghost use Rattle.std.specs.Prelude.{◌≡◌, ◌≤◌, ◌<◌, Bool, None, Some, length, map, filter, replicate, slice_set, All};
ghost use Rattle.std.specs.Prelude.{IfOk, OnOk};
ghost use Rattle.lra_overflow_checks.specs.Crates.lra_analysis_spec.Judging.{Finds, answer_of, first_flagged};
ghost use Rattle.lra_overflow_checks.specs.Crates.lra_analysis_spec.Operations.{lossy_operations};
ghost use Rattle.lra_overflow_checks.specs.Crates.lra_domain.declared.Exactness.{Exactness};
ghost use Rattle.lra_overflow_checks.specs.Crates.lra_operations.CheckedOperations.{ops_where};
ghost use Rattle.lra_overflow_checks.specs.Crates.lra_operations.TreeViews.{node_view};
ghost use Rattle.lra_overflow_checks.specs.Crates.{lra_analysis_spec.LiveLimit.most_live, lra_analysis_spec.Pass.noted};
ghost use Rattle.lra_program.specs.Step.{Op as ProgramOp};
ghost use Rattle.lra_operations_list.specs.TreeOperations.{op_ref_view, op_at_point_view};
ghost use Rattle.lra_overflow_checks.specs.Judged.{AreBelow, Fills, IsAnswered, asked_by, findings_from};

use lra_operations::{Node, Op};
use lra_operations_list::{OpRef, OpRefAtPoint, list_operations};
use lra_transfer::{Domain, Exactness, transfer_op, worse};
use std::alloc::{AllocError, Global};

/// An answer, and whether what had to be made for it is exact.
#[derive(Drop)]
pub struct Verdict<A> {
    pub answer: A,
    pub exactness: Exactness,
}

/// What is asked of operations.
pub trait Question<D: Domain> {
    type Answer: Drop;

    /// Of which operations it is asked.
    ghost asks: { ProgramOp → Bool };

    /// What is reported about an operation by the value that it has.
    ghost told: { ProgramOp → D → Self.Answer → Exactness → Type 0 };

    /// Whether it is asked of what is done.
    fn is_asked(alloc: Global, doing: OpRef<'_>) -> Result<bool, AllocError>
        ensures { IfOk result (λ b. b ≡ asks (op_ref_view doing.entry)) };

    /// The answer for what is done, by the value that it has.
    fn answer(
        alloc: Global,
        doing: OpRef<'_>,
        value: &D,
    ) -> Result<Verdict<Self::Answer>, AllocError>
        requires { D.abstraction.dims value.now ≤ most_live }
        ensures { IfOk result
            (λ j. told (op_ref_view doing.entry) value.now j.answer j.exactness) };
}

/// What is found at the points at which it is asked: the points' numbers in order, each with the answer; and the first
/// flagged point, after all that is flagged so far. Points are numbered from 0.
#[derive(Drop)]
pub struct Found<A> {
    pub answers: Vec<(usize, A)>,
    pub flagged: Option<usize>,
}

/// A table without a verdict, for so many points.
fn empty_table<A: Drop>(alloc: Global, count: usize) -> Result<Vec<Option<Verdict<A>>>, AllocError>
    ensures { IfOk result (λ table. table.items ≡ replicate count None) }
{
    let mut table = Vec::new(alloc);
    'places: for _place in 0..count {
        table.push(None)?;
    }
    Ok(table)
}

/// The point has this verdict from now on.
fn fill<A: Drop>(table: &mut Vec<Option<Verdict<A>>>, point: usize, verdict: Verdict<A>)
    requires { point < length table.old.items }
    ensures { table.new.items ≡ slice_set table.old.items point (Some verdict) }
{
    table[point] = Some(verdict);
}

/// The answer for what is done at a point with this value, after the new variable if there is one.
fn answer_done<D: Domain, Q: Question<D>>(
    alloc: Global,
    done: &OpRefAtPoint<'_>,
    value: &D,
) -> Result<Verdict<Q::Answer>, AllocError>
    requires { D.abstraction.dims value.now < most_live }
    ensures { IfOk result
        (λ j. IsAnswered (lossy_operations D.abstraction) Q.told (op_at_point_view done.now)
        value.now j.answer j.exactness) }
{
    match done.fresh {
        None => Q::answer(alloc, done.doing, value),
        Some(number_type) => {
            let mut behind = value.copy(alloc)?;
            let before = transfer_op(alloc, &Op::Append(number_type), &mut behind)?;
            let verdict = Q::answer(alloc, done.doing, &behind)?;
            Ok(Verdict {
                answer: verdict.answer,
                exactness: worse(before, verdict.exactness),
            })
        }
    }
}

/// The verdicts on all of what is done of which it is asked.
fn fill_table<D: Domain, Q: Question<D>>(
    alloc: Global,
    doings: &[OpRefAtPoint<'_>],
    values: &[D],
    table: &mut Vec<Option<Verdict<Q::Answer>>>,
) -> Result<(), AllocError>
    requires few { All (λ v. D.abstraction.dims v < most_live) values.now }
    requires long { length table.old.items ≡ length values.now }
    requires below { AreBelow (length values.now)
        (asked_by Q.asks (map op_at_point_view doings.now)) }
    ensures { OnOk result (Fills (lossy_operations D.abstraction) Q.told values.now
        (asked_by Q.asks (map op_at_point_view doings.now)) table.old.items table.new.items) }
{
    'doings: for done in doings {
        let asked = Q::is_asked(alloc, done.doing)?;
        if asked {
            let verdict = answer_done::<D, Q>(alloc, done, &values[done.point])?;
            fill(table, done.point, verdict);
        }
    }
    Ok(())
}

/// The first flagged point, after an operation of this one.
fn note(point: usize, exactness: Exactness, so_far: Option<usize>) -> Option<usize>
    ensures { result ≡ noted point exactness so_far }
{
    match so_far {
        Some(first) => Some(first),
        None => match exactness {
            Exactness::Exact => None,
            Exactness::Flagged => Some(point),
        },
    }
}

/// What the table's verdicts report, in the order of the points.
fn read_table<A: Drop>(
    alloc: Global,
    table: Vec<Option<Verdict<A>>>,
    flagged: Option<usize>,
) -> Result<Found<A>, AllocError>
    ensures told { IfOk result (λ f. f.answers.items ≡ map answer_of (findings_from 0 table.items)) }
    ensures flags { IfOk result (λ f. f.flagged ≡ first_flagged flagged (findings_from 0 table.items)) }
{
    let mut answers = Vec::new(alloc);
    let mut behind = flagged;
    let mut point = 0;
    'places: for place in table {
        if let Some(verdict) = place {
            behind = note(point, verdict.exactness, behind);
            answers.push((point, verdict.answer))?;
        }
        point += 1;
    }
    Ok(Found {
        answers,
        flagged: behind,
    })
}

/// What is found of a tree, by the values at its points; after what is flagged so far.
pub fn find<D: Domain, Q: Question<D>>(
    alloc: Global,
    tree: &Node,
    values: &[D],
    flagged: Option<usize>,
) -> Result<Found<Q::Answer>, AllocError>
    requires few { All (λ v. D.abstraction.dims v < most_live) values.now }
    requires below { AreBelow (length values.now) (ops_where Q.asks None (node_view tree.now)) }
    ensures { IfOk result (λ f. Finds (lossy_operations D.abstraction) Q.told
        (ops_where Q.asks None (node_view tree.now)) values.now flagged f.answers.items f.flagged) }
{
    let doings = list_operations(alloc, tree)?;
    let mut table = empty_table(alloc, values.len())?;
    fill_table::<D, Q>(alloc, doings.as_slice(), values, &mut table)?;
    let found = read_table(alloc, table, flagged)?;
    Ok(found)
}
