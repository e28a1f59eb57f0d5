//! What a pass over a tree of operations gives.

ghost use Rattle.std.specs.Prelude.{◌≡◌, ℕ, true, [], Option, None, IfOk, OnOk};
ghost use Rattle.lra_operations.specs.{Tree.broken, Tree.continued, Tree.returned, Tree.Node, TreeViews.exit_view};
ghost use Rattle.lra_pass_results.specs.Crates.lra_analysis_spec.Pass.{AreJoined, noted, goes_on, in_turn, jumps};
ghost use Rattle.lra_pass_results.specs.Crates.{lra_analysis_spec.Operations.lossy_operations};
ghost use Rattle.lra_pass_results.specs.Crates.{lra_analysis_spec.Pass.jumps_caught, lra_analysis_spec.Plan.Plan};
ghost use Rattle.lra_pass_results.specs.Outcome.{entry_view, ended, outcome_view, AllHave, AreGiven, AreInTurn};
ghost use Rattle.lra_pass_results.specs.Outcome.{AreKept, running_on, EntersWith};

use lra_operations::Exit;
use lra_transfer::{Domain, Exactness, Interfere, worse};
use std::alloc::{AllocError, Global};
use std::mem;

/// What is found on the way, with the number of its point.
#[derive(Drop)]
pub enum PassEntry<D> {
    /// The value at the point.
    Value(usize, D),
    /// The value where the assertion at the point is false.
    Failing(usize, D),
    /// What was there when the variable at this place had got a value.
    Recorded(usize, usize, D),
}

/// What is found on the way: entries in the order in which they are found, and the values of the jumps in text order.
pub struct PassFindings<D> {
    pub entries: Vec<PassEntry<D>>,
    pub breaks: Vec<D>,
    pub continues: Vec<D>,
    pub returns: Vec<D>,
}

impl<D: Drop> Drop for PassFindings<D> {
    fn drop(self) {
        let PassFindings {
            entries: _,
            breaks: _,
            continues: _,
            returns: _,
        } = self;
    }
}

/// What a pass gives: what is found on the way, the value after the tree, and the point of the first flagged
/// operation.
#[derive(Drop)]
pub struct PassOutcome<D> {
    pub found: PassFindings<D>,
    pub normal: D,
    pub flag: Option<usize>,
}

/// What is found of a `switch` so far: on the way, the value that runs in its arms, if one does, and the first
/// flagged point.
#[derive(Drop)]
pub struct Running<D> {
    pub found: PassFindings<D>,
    pub normal: Option<D>,
    pub flag: Option<usize>,
}

/// One time round a loop's body: the value that entered it, and what its pass gave.
pub struct LoopRound<D> {
    pub entered: D,
    pub outcome: PassOutcome<D>,
}

impl<D: Drop> Drop for LoopRound<D> {
    fn drop(self) {
        let LoopRound {
            entered: _,
            outcome: _,
        } = self;
    }
}

/// What comes into a loop's body: the kept round, if the same value entered it, or else the value, twice, and the
/// first flagged point so far.
#[derive(Drop)]
pub enum Entered<D> {
    Again(LoopRound<D>),
    Anew(D, D, Option<usize>),
}

/// The value at a loop's head, and the turn that began with it.
#[derive(Drop)]
pub struct HeadRound<D> {
    pub value: D,
    pub turn: LoopRound<D>,
}

impl<D: Domain> PassEntry<D> {
    /// A copy of the entry.
    fn copy(&self, alloc: Global) -> Result<PassEntry<D>, AllocError>
        ensures { IfOk result (λ e. e ≡ self.now) }
    {
        match self {
            PassEntry::Value(point, value) => {
                let copied = value.copy(alloc)?;
                Ok(PassEntry::Value(*point, copied))
            }
            PassEntry::Failing(point, value) => {
                let copied = value.copy(alloc)?;
                Ok(PassEntry::Failing(*point, copied))
            }
            PassEntry::Recorded(point, place, value) => {
                let copied = value.copy(alloc)?;
                Ok(PassEntry::Recorded(*point, *place, copied))
            }
        }
    }
}

/// Copies of entries.
fn copy_entries<D: Domain>(
    alloc: Global,
    entries: &[PassEntry<D>],
) -> Result<Vec<PassEntry<D>>, AllocError>
    ensures { IfOk result (λ copies. copies.items ≡ entries.now) }
{
    let mut copies = Vec::new(alloc);
    'entries: for entry in entries {
        copies.push(entry.copy(alloc)?)?;
    }
    Ok(copies)
}

/// Copies of values.
fn copy_values<D: Domain>(alloc: Global, values: &[D]) -> Result<Vec<D>, AllocError>
    ensures { IfOk result (λ copies. copies.items ≡ values.now) }
{
    let mut copies = Vec::new(alloc);
    'values: for value in values {
        copies.push(value.copy(alloc)?)?;
    }
    Ok(copies)
}

/// The first flagged point so far, after an operation of this point.
pub fn note(point: usize, exactness: Exactness, flag: Option<usize>) -> Option<usize>
    ensures { result ≡ noted point exactness flag }
{
    match (flag, exactness) {
        (Some(first), _) => Some(first),
        (None, Exactness::Exact) => None,
        (None, Exactness::Flagged) => Some(point),
    }
}

impl<D: Drop> PassFindings<D> {
    /// Nothing yet.
    fn nothing(alloc: Global) -> PassFindings<D>
        ensures { (v : D) (f : Option ℕ) → ended result v f ≡ goes_on [] v f }
    {
        PassFindings {
            entries: Vec::new(alloc),
            breaks: Vec::new(alloc),
            continues: Vec::new(alloc),
            returns: Vec::new(alloc),
        }
    }

    /// What the other found comes after; nothing is left in the other.
    pub fn append(&mut self, more: &mut PassFindings<D>) -> Result<(), AllocError>
        ensures { OnOk result (AreInTurn self.old more.old self.new) }
    {
        self.entries.append(&mut more.entries)?;
        self.breaks.append(&mut more.breaks)?;
        self.continues.append(&mut more.continues)?;
        self.returns.append(&mut more.returns)?;
        Ok(())
    }

    /// Whether nothing is found.
    fn is_nothing(&self) -> bool
        ensures { result ≡ true → (v : D) (f : Option ℕ) → ended self.now v f ≡ goes_on [] v f }
    {
        self.entries.is_empty()
            && self.breaks.is_empty()
            && self.continues.is_empty()
            && self.returns.is_empty()
    }

    /// What a pass found comes after, and its end is the end.
    pub fn follow_with(self, outcome: PassOutcome<D>) -> Result<PassOutcome<D>, AllocError>
        ensures { IfOk result (λ r. AreInTurn self outcome.found r.found × (r.normal ≡ outcome.normal) ×
            (r.flag ≡ outcome.flag)) }
    {
        if self.is_nothing() {
            return Ok(outcome);
        }
        let mut all = self;
        let PassOutcome {
            mut found,
            normal,
            flag,
        } = outcome;
        all.append(&mut found)?;
        Ok(PassOutcome {
            found: all,
            normal,
            flag,
        })
    }

    /// The values of `break` come out.
    pub fn take_breaks(&mut self, alloc: Global) -> Vec<D>
        ensures taken { result.items ≡ self.old.breaks.items }
        ensures left { (v w : D) (f g : Option ℕ) → ended self.new w g ≡ jumps_caught broken (ended self.old v f) w g }
    {
        mem::replace(&mut self.breaks, Vec::new(alloc))
    }

    /// The values of `continue` come out.
    pub fn take_continues(&mut self, alloc: Global) -> Vec<D>
        ensures taken { result.items ≡ self.old.continues.items }
        ensures left { (v w : D) (f g : Option ℕ) →
            ended self.new w g ≡ jumps_caught continued (ended self.old v f) w g }
    {
        mem::replace(&mut self.continues, Vec::new(alloc))
    }

    /// The values of `return` come out.
    pub fn take_returns(&mut self, alloc: Global) -> Vec<D>
        ensures taken { result.items ≡ self.old.returns.items }
        ensures left { (v w : D) (f g : Option ℕ) →
            ended self.new w g ≡ jumps_caught returned (ended self.old v f) w g }
    {
        mem::replace(&mut self.returns, Vec::new(alloc))
    }

    /// The entries alone.
    pub fn into_entries(self) -> Vec<PassEntry<D>>
        ensures { result ≡ self.entries }
    {
        let PassFindings {
            entries,
            breaks: _,
            continues: _,
            returns: _,
        } = self;
        entries
    }
}

impl<D: Domain> PassFindings<D> {
    /// A copy of what a pass found.
    fn copy(&self, alloc: Global) -> Result<PassFindings<D>, AllocError>
        ensures { IfOk result (λ r. (v : D) (f : Option ℕ) → ended r v f ≡ ended self.now v f) }
    {
        let entries = copy_entries(alloc, &self.entries)?;
        let breaks = copy_values(alloc, &self.breaks)?;
        let continues = copy_values(alloc, &self.continues)?;
        let returns = copy_values(alloc, &self.returns)?;
        Ok(PassFindings {
            entries,
            breaks,
            continues,
            returns,
        })
    }
}

impl<D: Domain> PassOutcome<D> {
    /// A copy of the outcome, with what is flagged so far.
    pub fn copy(&self, alloc: Global, flag: Option<usize>) -> Result<PassOutcome<D>, AllocError>
        ensures { IfOk result (λ r. outcome_view r ≡ ended self.now.found self.now.normal flag) }
    {
        let found = self.found.copy(alloc)?;
        let normal = self.normal.copy(alloc)?;
        Ok(PassOutcome {
            found,
            normal,
            flag,
        })
    }
}

impl<D: Drop> PassOutcome<D> {
    /// Nothing is found yet.
    pub fn nothing_yet(alloc: Global, normal: D, flag: Option<usize>) -> PassOutcome<D>
        ensures found { (v : D) (f : Option ℕ) → ended result.found v f ≡ goes_on [] v f }
        ensures normal { result.normal ≡ normal }
        ensures flag { result.flag ≡ flag }
    {
        PassOutcome {
            found: PassFindings::nothing(alloc),
            normal,
            flag,
        }
    }

    /// The jump takes the value, and `nothing` goes on.
    pub fn jump(&mut self, exit: Exit, nothing: D) -> Result<(), AllocError>
        ensures { OnOk result (outcome_view self.new ≡ in_turn (outcome_view self.old)
            (jumps (exit_view exit) self.old.normal nothing self.old.flag) nothing self.old.flag) }
    {
        let value = mem::replace(&mut self.normal, nothing);
        match exit {
            Exit::Broken => self.found.breaks.push(value)?,
            Exit::Continued => self.found.continues.push(value)?,
            Exit::Returned => self.found.returns.push(value)?,
        }
        Ok(())
    }
}

impl<D: Drop> Running<D> {
    /// Nothing runs yet.
    pub fn nothing(alloc: Global, flag: Option<usize>) -> Running<D>
        ensures found { (v : D) (f : Option ℕ) → ended result.found v f ≡ goes_on [] v f }
        ensures normal { result.normal ≡ None }
        ensures flag { result.flag ≡ flag }
    {
        Running {
            found: PassFindings::nothing(alloc),
            normal: None,
            flag,
        }
    }

    /// What a tree gave runs on.
    pub fn after(outcome: PassOutcome<D>) -> Running<D>
        ensures { result ≡ running_on outcome }
    {
        let PassOutcome {
            found,
            normal,
            flag,
        } = outcome;
        Running {
            found,
            normal: Some(normal),
            flag,
        }
    }
}

impl<D: Drop> LoopRound<D> {
    /// What entered the body, and what its pass gave.
    pub fn into_parts(self) -> (D, PassOutcome<D>)
        ensures entered { result.0 ≡ self.entered }
        ensures outcome { result.1 ≡ self.outcome }
    {
        let LoopRound { entered, outcome } = self;
        (entered, outcome)
    }

    /// What its pass gave alone.
    pub fn into_outcome(self) -> PassOutcome<D>
        ensures { result ≡ self.outcome }
    {
        let LoopRound {
            entered: _,
            outcome,
        } = self;
        outcome
    }
}

/// The kept round of a loop's body, if the same value enters it again: passed again it would give the same, but for
/// what is flagged so far.
fn reuse_turn<D: Domain, F: Interfere<D>>(
    kept: Option<LoopRound<D>>,
    on: &D,
    flag: Option<usize>,
) -> Option<LoopRound<D>>
    ensures { (others : F) (plan : Plan) (body : Node) →
        AreKept (F.interference others) D.abstraction plan body flag kept →
        AreGiven (F.interference others) D.abstraction plan body flag on.now result }
{
    let Some(mut turn) = kept else {
        return None;
    };
    if !turn.entered.same(on) {
        return None;
    }
    turn.outcome.flag = flag;
    Some(turn)
}

/// The kept round, if this value entered it, or else the value.
pub fn enter_with<D: Domain, F: Interfere<D>>(
    alloc: Global,
    kept: Option<LoopRound<D>>,
    on: D,
    flag: Option<usize>,
) -> Result<Entered<D>, AllocError>
    ensures { (others : F) (plan : Plan) (body : Node) →
        AreKept (F.interference others) D.abstraction plan body flag kept →
        IfOk result (EntersWith (F.interference others) D.abstraction plan body flag on) }
{
    match reuse_turn::<D, F>(kept, &on, flag) {
        Some(turn) => Ok(Entered::Again(turn)),
        None => {
            let entered = on.copy(alloc)?;
            Ok(Entered::Anew(entered, on, flag))
        }
    }
}

/// The values joined one by one, from the left.
pub fn join_all<D: Domain>(value: &mut D, others: &[D]) -> Result<Exactness, AllocError>
    requires { AllHave D.abstraction (D.abstraction.dims value.old) others.now }
    ensures joined { IfOk result (λ e. AreJoined (lossy_operations D.abstraction) value.old others.now e value.new) }
    ensures dims { OnOk result (D.abstraction.dims value.new ≡ D.abstraction.dims value.old) }
{
    let mut exactness = Exactness::Exact;
    'others: for other in others {
        let one = value.join(other)?;
        exactness = worse(exactness, one);
    }
    Ok(exactness)
}
