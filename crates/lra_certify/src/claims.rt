//! The lines of one path: the first multipliers that show that nothing goes along it; if there are none, the first
//! for each claim of its target.

ghost use Rattle.std.specs.Prelude.{◌<◌, [], ◌∷◌, length, OnOk, IfOk, IfErr, IfSome, Some, None, string_bytes};
ghost use Rattle.lra_certify.specs.Crates.lra_certificate_lines.PathCheckViews.{ArePathFacts, claim_row, target_rows};
ghost use Rattle.lra_certify.specs.Crates.lra_multipliers.MultiplierViews.{multipliers_view};
ghost use Rattle.lra_certify.specs.Crates.{lra_linear_spec.Cones.with_row, lra_linear_spec.Descriptions.system_of};
ghost use Rattle.lra_certify.specs.Crates.{lra_linear_spec.Kinds.is_equality, lra_systems.LinearSystems.constraints};
ghost use Rattle.lra_certify.specs.PathFactViews.{IsLine, IsLineFailure, IsNotShown, IsEvidence, HoldsOn, AllLead};
ghost use Rattle.lra_certify.specs.PathFactViews.{AllHold, AddsLines, AddsEvidence, SomeStrains, TargetStrains};
ghost use Rattle.lra_certify.specs.PathFactViews.{IfStrained};

use crate::failures::PathFailure;
use crate::text::push_multipliers;
use lra_farkas::{ConKind, ConSys, MultipliersFailure, Row, RowError, multipliers};
use lra_verify::{Multipliers, PathFacts};
use std::alloc::Global;

/// The first multipliers of a claim: a row over the variables, or that nothing is left.
fn find_multipliers(
    alloc: Global,
    grounds: &PathFacts,
    claim: Option<&Row>,
) -> Result<Multipliers, MultipliersFailure>
    requires are { ArePathFacts grounds.now }
    requires row { IfSome claim (λ r. 0 < length r.now) }
    ensures line { IfOk result (λ m.
        IsLine grounds.now (claim_row claim.entry) (multipliers_view m)) }
    ensures failure { IfErr result (IsLineFailure grounds.now (claim_row claim.entry)) }
{
    let _premises = grounds.premises.rows(); // fact: the premises are in the range, each as wide as the list
    match grounds.claim(alloc, claim) {
        Ok(row) => multipliers(alloc, &grounds.premises, &row),
        Err(RowError::Excess(_)) => Err(MultipliersFailure::Strained),
        Err(RowError::Memory) => Err(MultipliersFailure::Memory),
    }
}

/// Appends the line of a claim that holds wherever the premises do, which aren't dead.
fn push_claim(
    text: &mut String,
    alloc: Global,
    grounds: &PathFacts,
    claim: &Row,
) -> Result<(), PathFailure>
    requires are { ArePathFacts grounds.now }
    requires row { 0 < length claim.now }
    requires alive { IsNotShown grounds.now None }
    requires holds { HoldsOn grounds.now claim.now }
    ensures lines { OnOk result (AddsLines grounds.now (claim.now ∷ [])
        (string_bytes text.old) (string_bytes text.new)) }
    ensures failure { IfErr result (IfStrained (SomeStrains grounds.now (claim.now ∷ []))) }
{
    match find_multipliers(alloc, grounds, Some(claim)) {
        Ok(shown) => {
            push_multipliers(text, "by", &shown)?;
            Ok(())
        }
        Err(MultipliersFailure::NotImplied) => unreachable!(),
        Err(MultipliersFailure::Strained) => Err(PathFailure::Strained),
        Err(MultipliersFailure::Memory) => Err(PathFailure::Memory),
    }
}

/// Appends the lines of a row's claims: an equality has two, its row and then minus that.
fn push_row_claims(
    text: &mut String,
    alloc: Global,
    grounds: &PathFacts,
    row: &Row,
    kind: ConKind,
) -> Result<(), PathFailure>
    requires are { ArePathFacts grounds.now }
    requires row { 0 < length row.now }
    requires alive { IsNotShown grounds.now None }
    requires holds { AllHold grounds.now (with_row (is_equality kind) row.now []) }
    ensures lines { OnOk result (AddsLines grounds.now (with_row (is_equality kind) row.now [])
        (string_bytes text.old) (string_bytes text.new)) }
    ensures failure { IfErr result
        (IfStrained (SomeStrains grounds.now (with_row (is_equality kind) row.now []))) }
{
    push_claim(text, alloc, grounds, row)?;
    if kind.is_equality() {
        let opposite = row.negate()?;
        push_claim(text, alloc, grounds, &opposite)
    } else {
        Ok(())
    }
}

/// Appends the lines of the claims of all rows.
fn push_claims(
    text: &mut String,
    alloc: Global,
    grounds: &PathFacts,
    rows: &ConSys,
) -> Result<(), PathFailure>
    requires are { ArePathFacts grounds.now }
    requires alive { IsNotShown grounds.now None }
    requires holds { AllHold grounds.now (system_of (constraints rows.now)) }
    ensures lines { OnOk result (AddsLines grounds.now (system_of (constraints rows.now))
        (string_bytes text.old) (string_bytes text.new)) }
    ensures failure { IfErr result
        (IfStrained (SomeStrains grounds.now (system_of (constraints rows.now)))) }
{
    for place in 0..rows.len() {
        let (row, kind) = rows.at(place);
        push_row_claims(text, alloc, grounds, row, kind)?;
    }
    Ok(())
}

/// Appends what is said of a path with these grounds, all of whose points lead to the target.
pub fn push_evidence(
    text: &mut String,
    alloc: Global,
    grounds: &PathFacts,
    target: Option<&ConSys>,
) -> Result<(), PathFailure>
    requires are { ArePathFacts grounds.now }
    requires lead { AllLead grounds.now (target_rows target) }
    ensures evidence { OnOk result (AddsEvidence (IsEvidence grounds.now (target_rows target.entry))
        (string_bytes text.old) (string_bytes text.new)) }
    ensures failure { IfErr result
        (IfStrained (TargetStrains grounds.now (target_rows target.entry))) }
{
    match find_multipliers(alloc, grounds, None) {
        Ok(shown) => {
            push_multipliers(text, "dead", &shown)?;
            Ok(())
        }
        Err(MultipliersFailure::NotImplied) => match target {
            None => unreachable!(),
            Some(rows) => push_claims(text, alloc, grounds, rows),
        },
        Err(MultipliersFailure::Strained) => Err(PathFailure::Strained),
        Err(MultipliersFailure::Memory) => Err(PathFailure::Memory),
    }
}
