//! What is done beside a program's own operations: others act, and what variables get is noted.

ghost use Rattle.std.specs.Prelude.{◌≡◌, ◌∷◌, [], IfOk};
ghost use Rattle.lra_operations.specs.{Tree.probe, declared.probes.Probe.TheVariants.InterferencePoint};
ghost use Rattle.lra_fixpoint.specs.Crates.lra_analysis_spec.Pass.{recorded, goes_on};
ghost use Rattle.lra_fixpoint.specs.Crates.lra_analysis_spec.Plan.{Plan};
ghost use Rattle.lra_pass_results.specs.Outcome.{outcome_view, IsPassed};

use lra_interference_sound::{Domain, Interfere};
use lra_operations::Probe;
use lra_pass_results::{PassEntry, PassOutcome, note};
use std::alloc::{AllocError, Global};

/// Others act: the value takes in what they may do.
fn admit<D: Domain, F: Interfere<D>>(
    alloc: Global,
    others: &F,
    point: usize,
    value: D,
    flag: Option<usize>,
) -> Result<PassOutcome<D>, AllocError>
    ensures { (plan : Plan) →
        IfOk result (λ r. IsPassed (F.interference others.now) D.abstraction plan
        (probe point InterferencePoint) flag value (outcome_view r)) }
{
    let mut value = value;
    let exactness = others.apply(&mut value)?;
    let flag = note(point, exactness, flag);
    Ok(PassOutcome::nothing_yet(alloc, value, flag))
}

/// The variable at this place has just got a value: what the pass has now is noted.
fn record_write<D: Domain>(
    alloc: Global,
    point: usize,
    variable: usize,
    value: D,
    flag: Option<usize>,
) -> Result<PassOutcome<D>, AllocError>
    ensures { IfOk result
        (λ r. outcome_view r ≡ goes_on (recorded point variable value ∷ []) value flag) }
{
    let mut outcome = PassOutcome::nothing_yet(alloc, value, flag);
    let noted = outcome.normal.copy(alloc)?;
    outcome
        .found
        .entries
        .push(PassEntry::Recorded(point, variable, noted))?;
    Ok(outcome)
}

/// The pass over what is done at this point beside the program's own operations.
pub fn pass_probe<D: Domain, F: Interfere<D>>(
    alloc: Global,
    others: &F,
    point: usize,
    what: Probe,
    value: D,
    flag: Option<usize>,
) -> Result<PassOutcome<D>, AllocError>
    ensures { (plan : Plan) →
        IfOk result (λ r. IsPassed (F.interference others.now) D.abstraction plan
        (probe point what) flag value (outcome_view r)) }
{
    match what {
        Probe::InterferencePoint => admit(alloc, others, point, value, flag),
        Probe::RecordWrite(variable) => record_write(alloc, point, variable, value, flag),
    }
}
