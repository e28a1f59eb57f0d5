//! The moves of a value that goes to a label of a `switch`, in a table.

ghost use Rattle.std.specs.Prelude.{List, ◌∷◌, ◌<◌, ◌^◌, ◌-◌, length, IfOk, OnOk};
ghost use Rattle.lra_path_disjuncts.specs.Crates.lra_analysis_spec.Linearization.{LinearizedFits};
ghost use Rattle.lra_path_disjuncts.specs.Crates.lra_analysis_spec.MovesOf.{number_moves};
ghost use Rattle.lra_path_disjuncts.specs.Crates.lra_base.declared.case_labels.CaseLabel.{CaseLabel};
ghost use Rattle.lra_path_disjuncts.specs.StepMoves.{step_moves, unmatched_moves};
ghost use Rattle.lra_path_disjuncts.specs.{PassedLabels.PutsLabel, Tables.Grows, Tables.Has, Tables.IsTable};
ghost use Rattle.lra_path_segments.specs.{Labels.labels_in, TreeSegmentViews.selection_view};

use crate::conditions::push_comparison;
use crate::tables::{MovesEntry, push_first_then, push_stay};
use lra_linearize::{Linearized, comparison_where, linearize, subtract_number};
use lra_operations::Arm;
use lra_path_segments::Selection;
use lra_program::{CaseLabel, Comparison};
use std::alloc::{AllocError, Global};

/// What is seen has this number or, if it is not wanted, another one.
fn push_number(
    alloc: Global,
    live: usize,
    seen: &Linearized,
    number: &i64,
    wanted: bool,
    entries: &mut Vec<MovesEntry>,
) -> Result<usize, AllocError>
    requires table { IsTable entries.old.items }
    requires few { live < 2 ^ 62 - 2 }
    requires width { LinearizedFits seen.now live }
    ensures table { OnOk result (IsTable entries.new.items) }
    ensures grows { OnOk result (Grows entries.old.items entries.new.items) }
    ensures has { IfOk result (λ i. Has entries.new.items i
        (number_moves live wanted seen.now number.now)) }
{
    let op = comparison_where(Comparison::Equal, wanted);
    let difference = subtract_number(alloc, live, seen, number)?;
    push_comparison(alloc, entries, live, op, &difference)
}

/// What is seen doesn't have the label's value, and then come the moves of the later labels.
fn push_unmatched_label(
    alloc: Global,
    live: usize,
    seen: &Linearized,
    label: &CaseLabel,
    later: usize,
    entries: &mut Vec<MovesEntry>,
) -> Result<usize, AllocError>
    requires table { IsTable entries.old.items }
    requires few { live < 2 ^ 62 - 2 }
    requires width { LinearizedFits seen.now live }
    requires later { later < length entries.old.items }
    ensures table { OnOk result (IsTable entries.new.items) }
    ensures grows { OnOk result (Grows entries.old.items entries.new.items) }
    ensures puts { IfOk result (λ i. (labels : List CaseLabel) →
        Has entries.old.items later (unmatched_moves live seen.now labels) →
        Has entries.new.items i (unmatched_moves live seen.now (label.now ∷ labels))) }
{
    match label {
        CaseLabel::Case(number) => {
            let one = push_number(alloc, live, seen, number, false, entries)?;
            push_first_then(entries, one, later)
        }
        CaseLabel::Default => Ok(later),
    }
}

/// One arm more, before the later ones: a tree does nothing here.
fn push_unmatched_arm(
    alloc: Global,
    live: usize,
    seen: &Linearized,
    arm: &Arm,
    later: usize,
    entries: &mut Vec<MovesEntry>,
) -> Result<usize, AllocError>
    requires table { IsTable entries.old.items }
    requires few { live < 2 ^ 62 - 2 }
    requires width { LinearizedFits seen.now live }
    requires later { later < length entries.old.items }
    ensures table { OnOk result (IsTable entries.new.items) }
    ensures grows { OnOk result (Grows entries.old.items entries.new.items) }
    ensures puts { IfOk result (λ i. PutsLabel entries.old.items entries.new.items live seen.now
        arm.now later i) }
{
    match arm {
        Arm::Entry(label) => push_unmatched_label(alloc, live, seen, label, later, entries),
        Arm::Tree(_) => Ok(later),
    }
}

/// What is seen has none of the labels' values.
fn push_unmatched(
    alloc: Global,
    live: usize,
    seen: &Linearized,
    arms: &[Arm],
    entries: &mut Vec<MovesEntry>,
) -> Result<usize, AllocError>
    requires table { IsTable entries.old.items }
    requires few { live < 2 ^ 62 - 2 }
    requires width { LinearizedFits seen.now live }
    ensures table { OnOk result (IsTable entries.new.items) }
    ensures grows { OnOk result (Grows entries.old.items entries.new.items) }
    ensures has { IfOk result (λ i. Has entries.new.items i
        (unmatched_moves live seen.now (labels_in arms.now))) }
{
    let mut left = arms;
    let mut place = push_stay(entries)?;
    'arms: while let Some((arm, before)) = left.split_last() {
        place = push_unmatched_arm(alloc, live, seen, arm, place, entries)?;
        left = before;
    }
    Ok(place)
}

/// The value goes to the label.
pub fn push_selection(
    alloc: Global,
    live: usize,
    selection: Selection<'_>,
    label: &CaseLabel,
    entries: &mut Vec<MovesEntry>,
) -> Result<usize, AllocError>
    requires table { IsTable entries.old.items }
    requires few { live < 2 ^ 62 - 2 }
    ensures table { OnOk result (IsTable entries.new.items) }
    ensures grows { OnOk result (Grows entries.old.items entries.new.items) }
    ensures has { IfOk result (λ i. Has entries.new.items i
        (step_moves live (selection_view selection.entry label.now))) }
{
    let seen = linearize(alloc, live, selection.base, selection.value)?;
    match label {
        CaseLabel::Case(number) => push_number(alloc, live, &seen, number, true, entries),
        CaseLabel::Default => push_unmatched(alloc, live, &seen, selection.arms, entries),
    }
}
