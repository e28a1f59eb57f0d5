//! Both sides of a condition in a table of moves. A chain is taken from its last operand back, so that what the last
//! ones make stands once.

ghost use Rattle.std.specs.Prelude.{◌<◌, ◌^◌, ◌-◌, map, IfOk, OnOk};
ghost use Rattle.lra_path_disjuncts.specs.Conditions.{AreIn, HasBoth, JoinsAlways, Prepends, chain_of};
ghost use Rattle.lra_path_disjuncts.specs.Tables.{Grows, IsTable};
ghost use Rattle.lra_program.specs.ProgramViews.{cond_view};

use crate::conditions::{
    Both, ConditionContext, both_of, either_of, opposite_both, push_comparison_guards,
    push_nonzero_guards,
};
use crate::tables::MovesEntry;
use lra_program::Cond;
use std::alloc::AllocError;

/// Two operands of a chain of `||`, or of `&&`.
fn join_operands(
    any: bool,
    one: Both,
    other: Both,
    entries: &mut Vec<MovesEntry>,
) -> Result<Both, AllocError>
    requires table { IsTable entries.old.items }
    requires one { AreIn entries.old.items one }
    requires other { AreIn entries.old.items other }
    ensures table { OnOk result (IsTable entries.new.items) }
    ensures grows { OnOk result (Grows entries.old.items entries.new.items) }
    ensures joins { IfOk result (λ b. JoinsAlways entries.old.items entries.new.items any
        one other b) }
{
    if any {
        either_of(one, other, entries)
    } else {
        both_of(one, other, entries)
    }
}

/// Both sides of a condition, each of its comparisons taken once.
#[cycle(guards)]
pub fn push_guards(
    frame: ConditionContext,
    condition: &Cond,
    entries: &mut Vec<MovesEntry>,
) -> Result<Both, AllocError>
    requires table { IsTable entries.old.items }
    requires few { frame.live < 2 ^ 62 - 2 }
    ensures table { OnOk result (IsTable entries.new.items) }
    ensures grows { OnOk result (Grows entries.old.items entries.new.items) }
    ensures has { IfOk result (λ b. HasBoth entries.new.items frame.live frame.base
        (cond_view condition.now) b) }
{
    match condition {
        Cond::Compare(op, left, right) => push_comparison_guards(frame, *op, left, right, entries),
        Cond::Nonzero(e) => push_nonzero_guards(frame, e, entries),
        Cond::Opposite(inner) => {
            let both = push_guards(frame, inner, entries)?;
            Ok(opposite_both(both))
        }
        Cond::All(first, rest) => push_chain_guards(frame, false, first, rest.as_slice(), entries),
        Cond::Any(first, rest) => push_chain_guards(frame, true, first, rest.as_slice(), entries),
    }
}

/// One operand more of a chain, in front of what the later ones make.
#[cycle(guards)]
fn push_operand_guards(
    frame: ConditionContext,
    any: bool,
    operand: &Cond,
    later: Both,
    entries: &mut Vec<MovesEntry>,
) -> Result<Both, AllocError>
    requires table { IsTable entries.old.items }
    requires few { frame.live < 2 ^ 62 - 2 }
    requires later { AreIn entries.old.items later }
    ensures table { OnOk result (IsTable entries.new.items) }
    ensures grows { OnOk result (Grows entries.old.items entries.new.items) }
    ensures puts { IfOk result (λ b. Prepends entries.old.items entries.new.items frame.live
        frame.base any (cond_view operand.now) later b) }
{
    let one = push_guards(frame, operand, entries)?;
    join_operands(any, one, later, entries)
}

/// Both sides of a chain, from its last operand back.
#[cycle(guards)]
fn push_chain_guards(
    frame: ConditionContext,
    any: bool,
    first: &Cond,
    rest: &[Cond],
    entries: &mut Vec<MovesEntry>,
) -> Result<Both, AllocError>
    requires table { IsTable entries.old.items }
    requires few { frame.live < 2 ^ 62 - 2 }
    ensures table { OnOk result (IsTable entries.new.items) }
    ensures grows { OnOk result (Grows entries.old.items entries.new.items) }
    ensures has { IfOk result (λ b. HasBoth entries.new.items frame.live frame.base
        (chain_of any (cond_view first.now) (map cond_view rest.now)) b) }
{
    let Some((last, before)) = rest.split_last() else {
        return push_guards(frame, first, entries);
    };
    let mut whole = push_guards(frame, last, entries)?;
    let mut left = before;
    'operands: while let Some((next, earlier)) = left.split_last() {
        whole = push_operand_guards(frame, any, next, whole, entries)?;
        left = earlier;
    }
    push_operand_guards(frame, any, first, whole, entries)
}
