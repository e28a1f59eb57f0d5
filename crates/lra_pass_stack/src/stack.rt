//! Where a pass is under way: the open places, from the outermost to the innermost, and what comes next. The pass goes
//! along the tree by a list of these, and not by calls, so a tree may be as deep as memory allows.

ghost use Rattle.std.specs.Global.{Global};
ghost use Rattle.std.specs.Prelude.{◌≡◌, ◌++◌, ◌∷◌, [], ℕ, None, option_to_list, Box, IfOk, OnOk};
ghost use Rattle.lra_pass_stack.specs.declared.stack.Next.TheVariants.{Again, Opens};
ghost use Rattle.lra_pass_stack.specs.declared.stack.PassFrame.TheVariants.{Growing as growing_place};
ghost use Rattle.lra_pass_stack.specs.declared.stack.PassFrame.TheVariants.{Narrowing as narrowing_place};
ghost use Rattle.lra_pass_stack.specs.{Stack.PassTask, Stack.IsMade, Stack.PassStepLeads, StepsLeft.next_left};
ghost use Rattle.lra_pass_stack.specs.Crates.lra_analysis_spec.Plan.{Plan};
ghost use Rattle.lra_pass_results.specs.{Outcome.outcome_view, declared.loop_cache.LoopCache.LoopCache};

use lra_operations::{Arm, Exit, Node};
use lra_pass_results::{
    Choice, Domain, Growing, Interfere, Kept, Linearized, Loop, PassFindings, PassOutcome, Row,
    Selection,
};
use std::alloc::{AllocError, Global};

/// A tree that is to be passed: from this value, with the first flagged point so far.
#[derive(Drop)]
pub struct Entering<'a, D> {
    pub node: &'a Node,
    pub value: D,
    pub flag: Option<usize>,
}

/// The trees after one that is under way, and what those before it found.
#[derive(Drop)]
pub struct RowFrame<'a, D> {
    pub behind: Row<'a>,
    pub found: PassFindings<D>,
}

/// A choice whose first branch is under way, and what its condition leaves for the second.
#[derive(Drop)]
pub struct ChoiceFrame<'a, D> {
    pub choice: Choice<'a>,
    pub off: Kept<D>,
}

/// The point of a choice whose second branch is under way, and what the first one gave.
#[derive(Drop)]
pub struct BranchFrame<D> {
    pub point: usize,
    pub first: PassOutcome<D>,
}

/// A loop whose head grows and whose body is under way: its first value, its head, and what entered the body.
#[derive(Drop)]
pub struct GrowingFrame<'a, D, H> {
    pub the_loop: Loop<'a>,
    pub first: D,
    pub growing: Growing<D, H>,
    pub entered: D,
}

/// A loop that is narrowed: its first value, the value at its head, and how many rounds are left after the one from
/// that value.
#[derive(Drop)]
pub struct Narrowing<'a, D> {
    pub the_loop: Loop<'a>,
    pub first: D,
    pub top: D,
    pub left: u32,
}

/// A loop that is narrowed and whose body is under way, and what entered the body.
#[derive(Drop)]
pub struct NarrowingFrame<'a, D> {
    pub narrowing: Narrowing<'a, D>,
    pub entered: D,
}

/// A `switch` whose arms are gone through: what is seen of its value, whether a label is `default`, the value that came
/// to it, and what is left of that if no label matches.
#[derive(Drop)]
pub struct Selecting<'a, D> {
    pub selection: Selection<'a>,
    pub seen: Linearized,
    pub has_default: bool,
    pub from: D,
    pub other: D,
}

/// A `switch` in which the tree of an arm is under way, the arms after it, and what was found before it.
#[derive(Drop)]
pub struct SelectFrame<'a, D> {
    pub selecting: Selecting<'a, D>,
    pub behind: &'a [Arm],
    pub found: PassFindings<D>,
}

/// A place where a tree is under way, and what is still to be done there. What few of them have and is large is boxed,
/// since places and what comes next are moved at each step.
#[derive(Drop)]
pub enum PassFrame<'a, D, H> {
    Row(RowFrame<'a, D>),
    /// The last of trees one after the other is under way; this was found before it.
    Last(PassFindings<D>),
    Choice(ChoiceFrame<'a, D>),
    Branch(Box<BranchFrame<D>>),
    Growing(Box<GrowingFrame<'a, D, H>>),
    Narrowing(Box<NarrowingFrame<'a, D>>),
    /// Jumps of this kind come out at this point.
    Catch(usize, Exit),
    Select(Box<SelectFrame<'a, D>>),
}

/// What comes next.
#[derive(Drop)]
pub enum Next<'a, D, H> {
    /// The tree is passed.
    Passed(PassOutcome<D>),
    /// A place opens, and this tree in it is to be passed.
    Opens(PassFrame<'a, D, H>, Entering<'a, D>),
    /// A place opens for a tree that was passed from the same value before: it gives this again.
    Again(Box<PassFrame<'a, D, H>>, PassOutcome<D>),
}

/// What a step leads to: the whole tree is passed, or this comes next.
#[derive(Drop)]
pub enum Step<'a, D, H> {
    Ended(PassOutcome<D>),
    Goes(Next<'a, D, H>),
}

impl<'a, D: Drop, H: Drop> GrowingFrame<'a, D, H> {
    /// The place opens, and this tree in it is to be passed.
    pub fn opens(self, alloc: Global, tree: Entering<'a, D>) -> Result<Next<'a, D, H>, AllocError>
        ensures { IfOk result (λ n. (b : Box (GrowingFrame D H) Global) × (n ≡ Opens (growing_place b) tree.entry) ×
            (b.value ≡ self.entry)) }
    {
        let place = Box::new(alloc, self)?;
        Ok(Next::Opens(PassFrame::Growing(place), tree))
    }

    /// Opens this frame, for a tree whose kept outcome is given again.
    pub fn again(self, alloc: Global, outcome: PassOutcome<D>) -> Result<Next<'a, D, H>, AllocError>
        ensures { IfOk result (λ n. (b : Box (GrowingFrame D H) Global) × (p : Box (PassFrame D H) Global) ×
            (n ≡ Again p outcome) × (p.value ≡ growing_place b) × (b.value ≡ self.entry)) }
    {
        let place = Box::new(alloc, self)?;
        let boxed = Box::new(alloc, PassFrame::Growing(place))?;
        Ok(Next::Again(boxed, outcome))
    }
}

impl<'a, D: Drop> NarrowingFrame<'a, D> {
    /// The place opens, and this tree in it is to be passed.
    pub fn opens<H: Drop>(
        self,
        alloc: Global,
        tree: Entering<'a, D>,
    ) -> Result<Next<'a, D, H>, AllocError>
        ensures { IfOk result (λ n. (b : Box (NarrowingFrame D) Global) × (n ≡ Opens (narrowing_place b) tree.entry) ×
            (b.value ≡ self.entry)) }
    {
        let place = Box::new(alloc, self)?;
        Ok(Next::Opens(PassFrame::Narrowing(place), tree))
    }

    /// Opens this frame, for a tree whose kept outcome is given again.
    pub fn again<H: Drop>(
        self,
        alloc: Global,
        outcome: PassOutcome<D>,
    ) -> Result<Next<'a, D, H>, AllocError>
        ensures { IfOk result (λ n. (b : Box (NarrowingFrame D) Global) × (p : Box (PassFrame D H) Global) ×
            (n ≡ Again p outcome) × (p.value ≡ narrowing_place b) × (b.value ≡ self.entry)) }
    {
        let place = Box::new(alloc, self)?;
        let boxed = Box::new(alloc, PassFrame::Narrowing(place))?;
        Ok(Next::Again(boxed, outcome))
    }
}

/// The open places, from the outermost to the innermost.
pub struct PassStack<'a, D, H> {
    pub open: Vec<PassFrame<'a, D, H>>,
}

impl<'a, D: Drop, H: Drop> Drop for PassStack<'a, D, H> {
    fn drop(self) {
        let PassStack { open: _ } = self;
    }
}

impl<'a, D: Drop, H: Drop> PassStack<'a, D, H> {
    /// A stack without an open frame.
    pub fn none(alloc: Global) -> PassStack<'a, D, H>
        ensures { result.open.items ≡ [] }
    {
        PassStack {
            open: Vec::new(alloc),
        }
    }

    /// Opens the frame inside the innermost one.
    pub fn push(&mut self, place: PassFrame<'a, D, H>) -> Result<(), AllocError>
        ensures { OnOk result (self.new.open.items ≡ self.old.open.items ++ place.entry ∷ []) }
    {
        self.open.push(place)?;
        Ok(())
    }

    /// The innermost one is left, if one is open.
    pub fn pop(&mut self) -> Option<PassFrame<'a, D, H>>
        ensures left { self.old.open.items ≡ self.new.open.items ++ option_to_list result }
        ensures none { result ≡ None → self.old.open.items ≡ [] }
    {
        self.open.pop()
    }
}

/// The tree is passed, with what its pass gave.
pub fn passed<'a, D: Domain, F: Interfere<D>>(
    given: Result<PassOutcome<D>, AllocError>,
) -> Result<Next<'a, D, D::Head>, AllocError>
    ensures leads { (others : F) (set : Plan) (whole : PassTask D) (memory : LoopCache D) →
        IfOk given (λ r. IsMade (F.interference others) D.abstraction set whole (outcome_view r)
        memory) →
        IfOk result (λ next. PassStepLeads (F.interference others) D.abstraction set whole next
        memory) }
    ensures ends { (b : ℕ) (set : Plan) →
        IfOk result (λ next. next_left D.abstraction b set next ≡ 0) }
{
    let outcome = given?;
    Ok(Next::Passed(outcome))
}
