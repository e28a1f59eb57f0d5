//! What stands in the parentheses of a statement.

ghost use Rattle.std.specs.Prelude.{◌≡◌, ◌+◌, ◌++◌, ◌∷◌, [], suc, map, option_map, IfOk, OnOk, IfErr};
ghost use Rattle.lra_program.specs.Program.{Stmt, no_more, assert as assert_stmt, assume as assume_stmt};
ghost use Rattle.lra_program.specs.ProgramViews.{stmt_view, items_view, item_view, cond_view};
ghost use Rattle.lra_syntax.specs.Labels.{plain_label, init_labels, step_labels, live_in_for};
ghost use Rattle.lra_syntax.specs.Views.{init_view, assign_view, cond_view as tree_cond_view};
ghost use Rattle.lra_resolve_simple.specs.Crates.lra_resolution_spec.NameFaults.{cond_faults, init_faults};
ghost use Rattle.lra_resolve_simple.specs.Crates.lra_resolution_spec.NameFaults.{test_of_for_faults, step_faults};
ghost use Rattle.lra_resolve_simple.specs.Crates.lra_resolution_spec.Resolve.{resolve_cond, resolve_init};
ghost use Rattle.lra_resolve_simple.specs.Crates.lra_resolution_spec.Resolve.{resolve_for_test, resolve_step};
ghost use Rattle.lra_resolve_simple.specs.Crates.lra_resolution_spec.Resolve.{init_count, step_count};
ghost use Rattle.lra_resolve_simple.specs.Crates.lra_resolution_spec.Scope.{for_scope};
ghost use Rattle.lra_scopes.specs.{Calls.functions_at, Outcome.StopsAtFirstFault};
ghost use Rattle.lra_resolve_simple.specs.Labelling.{Adds, for_front};
ghost use Rattle.lra_resolve_simple.specs.LoopHeads.{for_head, head_faults, body_scope, body_label, head_labels};
ghost use Rattle.lra_resolve_simple.specs.LoopHeads.{body_live, loop_around, rounds_view, loop_with};
ghost use Rattle.lra_resolve_simple.specs.Statements.{followed, choice, loop_of, for_of};

use crate::around::Around;
use crate::declarations::add_declaration;
use crate::labelling::Labelling;
use crate::simple::resolve_assignment;
use lra_base::{NumberType, Place, SourceError};
use lra_scopes::{Scope, resolve_cond};
use lra_syntax::{Assign, Cond, Init};
use std::alloc::Global;

/// The label of a statement with a condition, and the condition.
pub struct Head {
    label: usize,
    cond: lra_program::Cond,
}

impl Drop for Head {
    fn drop(self) {
        let Head { label: _, cond: _ } = self;
    }
}

impl Head {
    /// A choice of two statements.
    pub fn choose(
        self,
        alloc: Global,
        branch: lra_program::Stmt,
        other: lra_program::Stmt,
    ) -> Result<lra_program::Stmt, SourceError>
        ensures found { IfOk result (λ s. stmt_view s ≡ choice self.label (cond_view self.cond) (stmt_view branch)
            (stmt_view other)) }
        ensures memory { IfErr result (λ e. e ≡ SourceError.Memory) }
    {
        let Head { label, cond } = self;
        let branch = Box::new(alloc, branch)?;
        let other = Box::new(alloc, other)?;
        Ok(lra_program::Stmt::If(label, cond, branch, other))
    }

    /// A loop, with a step after each round.
    pub fn repeat(
        self,
        alloc: Global,
        body: lra_program::Stmt,
        step: lra_program::Stmt,
    ) -> Result<lra_program::Stmt, SourceError>
        ensures found { IfOk result (λ s. stmt_view s ≡ loop_of self.label (cond_view self.cond) (stmt_view body)
            (stmt_view step)) }
        ensures memory { IfErr result (λ e. e ≡ SourceError.Memory) }
    {
        let Head { label, cond } = self;
        let body = Box::new(alloc, body)?;
        let step = Box::new(alloc, step)?;
        Ok(lra_program::Stmt::Loop(label, cond, body, step))
    }

    /// A `for` that begins so.
    fn repeat_behind(
        self,
        alloc: Global,
        init: lra_program::BlockItems,
        body: lra_program::Stmt,
        step: lra_program::Stmt,
    ) -> Result<lra_program::Stmt, SourceError>
        ensures found { IfOk result (λ s. stmt_view s ≡ for_of self.label (items_view init) (cond_view self.cond)
            (stmt_view body) (stmt_view step)) }
        ensures memory { IfErr result (λ e. e ≡ SourceError.Memory) }
    {
        let Head { label, cond } = self;
        let body = Box::new(alloc, body)?;
        let step = Box::new(alloc, step)?;
        Ok(lra_program::Stmt::For {
            label,
            init,
            cond,
            body,
            step,
        })
    }

    /// An `assert`.
    fn into_assert(self) -> lra_program::Stmt
        ensures { stmt_view result ≡ assert_stmt self.label (cond_view self.cond) }
    {
        let Head { label, cond } = self;
        lra_program::Stmt::Assert(label, cond)
    }

    /// An `assume`.
    fn into_assume(self) -> lra_program::Stmt
        ensures { stmt_view result ≡ assume_stmt self.label (cond_view self.cond) }
    {
        let Head { label, cond } = self;
        lra_program::Stmt::Assume(label, cond)
    }
}

/// Where a choice stands, and what it asks.
#[derive(Clone, Copy)]
pub struct Asked<'a> {
    pub place: &'a Place,
    pub cond: &'a Cond,
}

/// The next label, and the condition of the statement under it.
#[tactic(auto, using(lra_scopes::proofs::Loops::wanting_told))]
pub fn resolve_head(
    alloc: Global,
    scope: &Scope,
    labels: &mut Labelling,
    place: Place,
    cond: &Cond,
) -> Result<Head, SourceError>
    ensures told { StopsAtFirstFault (cond_faults scope.now (tree_cond_view cond.now)) result }
    ensures label { IfOk result (λ h. h.label ≡ labels.old.next) }
    ensures found { IfOk result (λ h. cond_view h.cond ≡ resolve_cond scope.now (tree_cond_view cond.now)) }
    ensures counted { OnOk result (labels.new.next ≡ suc labels.old.next) }
    ensures adds { OnOk result (Adds labels.old labels.new (plain_label place labels.old.live ∷ [])) }
{
    let label = labels.add(place, None)?;
    let cond = resolve_cond(alloc, scope, cond)?;
    Ok(Head { label, cond })
}

/// An assertion under a new label at its place.
///
/// `UnknownName` at the first variable of its condition that isn't known, `Memory` if memory runs out.
pub fn resolve_assert(
    around: &Around<'_>,
    scope: &Scope,
    labels: &mut Labelling,
    place: Place,
    cond: &Cond,
) -> Result<lra_program::Stmt, SourceError>
    ensures told { StopsAtFirstFault (cond_faults scope.now (tree_cond_view cond.now)) result }
    ensures found { IfOk result (λ s. stmt_view s ≡ assert_stmt labels.old.next
        (resolve_cond scope.now (tree_cond_view cond.now))) }
    ensures counted { OnOk result (labels.new.next ≡ suc labels.old.next) }
    ensures adds { OnOk result (Adds labels.old labels.new (plain_label place labels.old.live ∷ [])) }
{
    let head = resolve_head(around.alloc, scope, labels, place, cond)?;
    Ok(head.into_assert())
}

/// An assumption under a new label at its place.
///
/// `UnknownName` at the first variable of its condition that isn't known, `Memory` if memory runs out.
pub fn resolve_assume(
    around: &Around<'_>,
    scope: &Scope,
    labels: &mut Labelling,
    place: Place,
    cond: &Cond,
) -> Result<lra_program::Stmt, SourceError>
    ensures told { StopsAtFirstFault (cond_faults scope.now (tree_cond_view cond.now)) result }
    ensures found { IfOk result (λ s. stmt_view s ≡ assume_stmt labels.old.next
        (resolve_cond scope.now (tree_cond_view cond.now))) }
    ensures counted { OnOk result (labels.new.next ≡ suc labels.old.next) }
    ensures adds { OnOk result (Adds labels.old labels.new (plain_label place labels.old.live ∷ [])) }
{
    let head = resolve_head(around.alloc, scope, labels, place, cond)?;
    Ok(head.into_assume())
}

/// The items of a block.
#[tactic(auto, using(crate::proofs::StatementLaws::followed_end))]
pub fn block_of(items: Vec<lra_program::BlockItem>) -> lra_program::BlockItems
    ensures { items_view result ≡ followed (map item_view items.items) no_more }
{
    lra_program::BlockItems { items }
}

/// Begins the scope of a `for`, and resolves how it begins.
#[tactic(auto, using(crate::proofs::StatementLaws::init_rules))]
fn resolve_init(
    around: &Around<'_>,
    scope: &mut Scope,
    labels: &mut Labelling,
    init: &Init,
) -> Result<lra_program::BlockItems, SourceError>
    ensures told { StopsAtFirstFault
        (init_faults (functions_at around.now.functions.now) scope.old (init_view init.now)) result }
    ensures found { IfOk result (λ b. items_view b ≡ resolve_init
        (functions_at around.now.functions.now) scope.old labels.old.next (init_view init.now)) }
    ensures entered { OnOk result (scope.new ≡ for_scope scope.old (init_view init.now)) }
    ensures counted { OnOk result (labels.new.next ≡ labels.old.next + init_count (init_view init.now)) }
    ensures labelled { OnOk result (labels.new.labels ≡
        labels.old.labels ++ init_labels labels.old.live (init_view init.now)) }
    ensures lives { OnOk result (labels.new.live ≡ live_in_for labels.old.live (init_view init.now)) }
{
    let mut items = Vec::new(around.alloc);
    match init {
        Init::Nothing => {
            scope.enter();
            Ok(block_of(items))
        }
        Init::Declaration(declaration) => {
            scope.enter();
            add_declaration(around.functions, scope, labels, declaration, &mut items)?;
            Ok(block_of(items))
        }
        Init::Assign(assign) => {
            let stmt = resolve_assignment(around, scope, labels, assign)?;
            items.push(lra_program::BlockItem::Statement(stmt))?;
            scope.enter();
            Ok(block_of(items))
        }
    }
}

/// A test that isn't there is true.
fn resolve_for_test(
    alloc: Global,
    scope: &Scope,
    test: &Option<Cond>,
) -> Result<lra_program::Cond, SourceError>
    ensures told { StopsAtFirstFault (test_of_for_faults scope.now (option_map tree_cond_view test.now)) result }
    ensures found { IfOk result (λ c. cond_view c ≡ resolve_for_test scope.now (option_map tree_cond_view test.now)) }
{
    match test {
        None => {
            let one = lra_program::Expr::Literal(NumberType::Int, 1);
            Ok(lra_program::Cond::Nonzero(one))
        }
        Some(cond) => resolve_cond(alloc, scope, cond),
    }
}

fn resolve_step(
    around: &Around<'_>,
    scope: &Scope,
    labels: &mut Labelling,
    step: &Option<Assign>,
) -> Result<lra_program::Stmt, SourceError>
    ensures told { StopsAtFirstFault (step_faults (functions_at around.now.functions.now) scope.now
        (option_map assign_view step.now)) result }
    ensures found { IfOk result (λ s. stmt_view s ≡ resolve_step
        (functions_at around.now.functions.now) scope.now labels.old.next (option_map assign_view step.now)) }
    ensures counted { OnOk result (labels.new.next ≡ labels.old.next + step_count (option_map assign_view step.now)) }
    ensures adds { OnOk result (Adds labels.old labels.new
        (step_labels labels.old.live (option_map assign_view step.now))) }
{
    match step {
        None => Ok(lra_program::Stmt::Absent),
        Some(assign) => resolve_assignment(around, scope, labels, assign),
    }
}

/// Where a `for` stands, and what stands in its parentheses, in the source.
#[derive(Clone, Copy)]
pub struct Parentheses<'a> {
    pub place: Place,
    pub init: &'a Init,
    pub test: &'a Option<Cond>,
    pub step: &'a Option<Assign>,
}

/// What stands before a loop's body, in the source.
#[derive(Clone, Copy)]
pub enum Rounds<'a> {
    While(&'a Place, &'a Cond),
    For(&'a Place, &'a Init, &'a Option<Cond>, &'a Option<Assign>),
}

/// What stands in the parentheses of a `for`, resolved, with its label.
pub struct ForHead {
    init: lra_program::BlockItems,
    head: Head,
    step: lra_program::Stmt,
}

impl Drop for ForHead {
    fn drop(self) {
        let ForHead {
            init: _,
            head: _,
            step: _,
        } = self;
    }
}

impl ForHead {
    /// The whole `for`.
    pub fn into_loop(
        self,
        alloc: Global,
        body: lra_program::Stmt,
    ) -> Result<lra_program::Stmt, SourceError>
        ensures found { IfOk result (λ s. stmt_view s ≡ for_of self.head.label (items_view self.init)
            (cond_view self.head.cond) (stmt_view body) (stmt_view self.step)) }
        ensures memory { IfErr result (λ e. e ≡ SourceError.Memory) }
    {
        let ForHead { init, head, step } = self;
        head.repeat_behind(alloc, init, body, step)
    }
}

/// Takes the label of a `for`, begins its scope, and resolves what stands in its parentheses.
pub fn resolve_for_head(
    around: &Around<'_>,
    scope: &mut Scope,
    labels: &mut Labelling,
    rounds: &Parentheses<'_>,
) -> Result<ForHead, SourceError>
    ensures told { StopsAtFirstFault (head_faults (functions_at around.now.functions.now) scope.old
        (for_head rounds.now.place (init_view rounds.now.init.now) (option_map tree_cond_view rounds.now.test.now)
        (option_map assign_view rounds.now.step.now))) result }
    ensures label { IfOk result (λ h. h.head.label ≡ labels.old.next) }
    ensures begun { IfOk result (λ h. items_view h.init
        ≡ resolve_init (functions_at around.now.functions.now) scope.old (suc labels.old.next)
        (init_view rounds.now.init.now)) }
    ensures tested { IfOk result (λ h. cond_view h.head.cond
        ≡ resolve_for_test (for_scope scope.old (init_view rounds.now.init.now))
        (option_map tree_cond_view rounds.now.test.now)) }
    ensures stepped { IfOk result (λ h. stmt_view h.step
        ≡ resolve_step (functions_at around.now.functions.now) (for_scope scope.old (init_view rounds.now.init.now))
        (suc labels.old.next + init_count (init_view rounds.now.init.now))
        (option_map assign_view rounds.now.step.now)) }
    ensures entered { OnOk result (scope.new ≡ for_scope scope.old (init_view rounds.now.init.now)) }
    ensures counted { OnOk result (labels.new.next ≡ suc labels.old.next + init_count (init_view rounds.now.init.now)
        + step_count (option_map assign_view rounds.now.step.now)) }
    ensures labelled { OnOk result (labels.new.labels ≡ labels.old.labels ++ for_front rounds.now.place labels.old.live
        (init_view rounds.now.init.now) (option_map assign_view rounds.now.step.now)) }
    ensures lives { OnOk result (labels.new.live ≡ live_in_for labels.old.live (init_view rounds.now.init.now)) }
{
    let label = labels.add(rounds.place, None)?;
    let init = resolve_init(around, scope, labels, rounds.init)?;
    labels.relist(label);
    let cond = resolve_for_test(around.alloc, scope, rounds.test)?;
    let step = resolve_step(around, scope, labels, rounds.step)?;
    let head = Head { label, cond };
    Ok(ForHead { init, head, step })
}

/// What stands before a loop's body, resolved, with the loop's label.
pub enum LoopHead {
    While(Head),
    For(ForHead),
}

impl Drop for LoopHead {
    fn drop(self) {
        match self {
            LoopHead::While(_) => {}
            LoopHead::For(_) => {}
        }
    }
}

impl LoopHead {
    /// The whole loop. Not inlined, as the others that say so here: what resolves statements calls itself at each
    /// level, and is to take little of the stack.
    #[inline(never)]
    pub fn into_loop(
        self,
        alloc: Global,
        body: lra_program::Stmt,
    ) -> Result<lra_program::Stmt, SourceError>
        ensures found { IfOk result (λ s. stmt_view s ≡ loop_with self (stmt_view body)) }
        ensures memory { IfErr result (λ e. e ≡ SourceError.Memory) }
    {
        match self {
            LoopHead::While(head) => head.repeat(alloc, body, lra_program::Stmt::Absent),
            LoopHead::For(head) => head.into_loop(alloc, body),
        }
    }
}

/// Takes the label of a loop, and resolves what stands before its body. A `for` begins a scope.
#[inline(never)]
pub fn resolve_loop_head(
    around: &Around<'_>,
    scope: &mut Scope,
    labels: &mut Labelling,
    rounds: &Rounds<'_>,
) -> Result<LoopHead, SourceError>
    ensures told { StopsAtFirstFault
        (head_faults (functions_at around.now.functions.now) scope.old (rounds_view rounds.now))
        result }
    ensures found { IfOk result (λ h. (body : Stmt) → loop_with h body
        ≡ loop_around (functions_at around.now.functions.now) scope.old labels.old.next (rounds_view rounds.now) body) }
    ensures entered { OnOk result (scope.new ≡ body_scope scope.old (rounds_view rounds.now)) }
    ensures counted { OnOk result (labels.new.next ≡ body_label labels.old.next (rounds_view rounds.now)) }
    ensures labelled { OnOk result (labels.new.labels
        ≡ labels.old.labels ++ head_labels labels.old.live (rounds_view rounds.now)) }
    ensures lives { OnOk result (labels.new.live ≡ body_live labels.old.live (rounds_view rounds.now)) }
{
    match *rounds {
        Rounds::While(place, cond) => {
            let head = resolve_head(around.alloc, scope, labels, *place, cond)?;
            Ok(LoopHead::While(head))
        }
        Rounds::For(place, init, test, step) => {
            let parentheses = Parentheses {
                place: *place,
                init,
                test,
                step,
            };
            let head = resolve_for_head(around, scope, labels, &parentheses)?;
            Ok(LoopHead::For(head))
        }
    }
}
