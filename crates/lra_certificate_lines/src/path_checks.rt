//! Paths as their lines are judged: the premises of these, and the claims over the symbols.

ghost use Rattle.std.specs.Prelude.{◌≡◌, ◌≤◌, ◌<◌, ◌+◌, ◌-◌, ◌++◌, ◌^◌, [], ◌∷◌, suc, map, length, IfOk, IfErr, IfSome};
ghost use Rattle.std.specs.Prelude.{OnOk, codes, None};
ghost use Rattle.lra_certificate_lines.specs.Crates.lra_linear_spec.Kinds.{is_equality};
ghost use Rattle.lra_certificate_lines.specs.Crates.lra_systems.LinearSystems.{constraints};
ghost use Rattle.lra_certificate_lines.specs.Crates.{lra_domain.Changes.action_of, lra_linear_spec.Vectors.zeros};
ghost use Rattle.lra_certificate_lines.specs.Crates.{lra_path_disjuncts.TableDisjuncts.all_done};
ghost use Rattle.lra_row.specs.Rows.{IsExcessOf};
ghost use Rattle.lra_multipliers.specs.MultiplierViews.{answer_view, multipliers_view};
ghost use Rattle.lra_multipliers.specs.Symbols.{tests_in};
ghost use Rattle.lra_certificate_spec.specs.Lines.{pieces_at, left_at, judged_in_turn};
ghost use Rattle.lra_certificate_spec.specs.{Certificates.padded, Judged.is_dead_line, Judged.line_on};
ghost use Rattle.lra_certificate_lines.specs.PathCheckViews.{ArePathFacts, IsPathCheck, IsWhole, claimed, claim_row};
ghost use Rattle.lra_certificate_lines.specs.PathCheckViews.{target_rows, answered, answer_by, line_by, row_by};
ghost use Rattle.lra_certificate_lines.specs.{LineViews.IsJudgedAs, PathCheckViews.lines_by, SymbolicViews.HasWidth};

use crate::lines::line_at;
use crate::multiplier_lines::{MultiplierLine, take_answer, take_multipliers};
use crate::refusals::VerifyError;
use crate::symbolic::{SymbolicExecution, compose};
use lra_multipliers::{Answer, Change, ConSys, Multipliers, check};
use lra_row::{ConKind, Row, RowError};
use std::alloc::{AllocError, Global};

/// The premises of a path's lines, and the rows of the variables after it.
#[derive(Drop)]
pub struct PathFacts {
    pub premises: ConSys,
    pub forms: Vec<Row>,
}

/// The row, with zeros up to this width.
fn pad(alloc: Global, row: &Row, width: usize) -> Result<Row, AllocError>
    requires { length row.now ≤ width }
    ensures { IfOk result (λ r. r ≡ row.now ++ zeros (width - length row.now)) }
{
    let mut numbers = Vec::from_slice(alloc, row.entries())?;
    'columns: while numbers.len() < width {
        numbers.push(0)?;
    }
    Row::from_slice(alloc, numbers.as_slice())
}

/// The rows of a source, over so many symbols.
fn pad_rows(alloc: Global, rows: &ConSys, dims: usize) -> Result<ConSys, AllocError>
    requires small { dims < 2 ^ 61 }
    requires room { rows.now.dims ≤ dims }
    ensures rows { IfOk result (λ s. constraints s ≡
        map (padded (suc dims)) (constraints rows.now)) }
    ensures dims { IfOk result (λ s. s.dims ≡ dims) }
    ensures kinds { IfOk result (λ s. length s.kinds ≡ length s.rows) }
{
    let mut wide = ConSys::new(alloc, dims);
    for place in 0..rows.len() {
        let (row, kind) = rows.at(place);
        let row = pad(alloc, row, dims + 1)?;
        wide.push(row, kind)?;
    }
    Ok(wide)
}

/// The rows come last.
fn push_rows(rows: &ConSys, all: &mut ConSys) -> Result<(), AllocError>
    requires dims { rows.now.dims ≡ all.old.dims }
    requires kinds { length all.old.kinds ≡ length all.old.rows }
    ensures rows { OnOk result (constraints all.new ≡ constraints all.old ++ constraints rows.now) }
    ensures dims { OnOk result (all.new.dims ≡ all.old.dims) }
    ensures kinds { OnOk result (length all.new.kinds ≡ length all.new.rows) }
{
    for place in 0..rows.len() {
        let (row, kind) = rows.at(place);
        all.push_copy(row, kind)?;
    }
    Ok(())
}

/// How many tests the change makes.
fn tests_of(change: &Change) -> usize
    ensures is { result ≡ tests_in (action_of change.now ∷ []) }
    ensures few { result ≤ 1 }
{
    match change {
        Change::Assign(_, _) => 0,
        Change::Forget(_) => 0,
        Change::Test(_) => 1,
        Change::Embed(_) => 0,
        Change::RemoveLast(_) => 0,
    }
}

/// How many tests the changes make.
fn count_tests(path: &[&Change]) -> usize
    ensures { result ≡ tests_in (all_done path.now) }
{
    let mut count = 0;
    for change in path.iter() {
        count += tests_of(change);
    }
    count
}

/// How many premises the lines of a path have; none if no memory holds so many.
fn count_premises(rows: &ConSys, path: &[&Change]) -> Option<usize>
    ensures { IfSome result (λ n. (n < 2 ^ 62)
        × (n ≡ length (constraints rows.now) + tests_in (all_done path.now))) }
{
    match rows.len().checked_add(count_tests(path)) {
        None => None,
        Some(count) => { if count < 1 << 62 { Some(count) } else { None } }
    }
}

/// Whether the line that begins here says that nothing goes along its path.
fn is_dead_line(bytes: &[u8], at: usize) -> bool
    requires { at ≤ length bytes.now }
    ensures { result ≡ is_dead_line (line_on (pieces_at bytes.now at)) }
{
    match line_at(bytes, at) {
        None => false,
        Some(line) => line.starts_with(b"dead "),
    }
}

impl PathFacts {
    /// Of a path from a source with these rows.
    fn of(alloc: Global, rows: &ConSys, walk: SymbolicExecution) -> Result<PathFacts, AllocError>
        requires wide { HasWidth (suc walk.tests.dims) walk }
        requires small { walk.tests.dims < 2 ^ 61 }
        requires room { rows.now.dims ≤ walk.tests.dims }
        ensures premises { IfOk result (λ g. constraints g.premises ≡
            map (padded (suc walk.tests.dims)) (constraints rows.now) ++ constraints walk.tests) }
        ensures dims { IfOk result (λ g. g.premises.dims ≡ walk.tests.dims) }
        ensures kinds { IfOk result (λ g. length g.premises.kinds ≡ length g.premises.rows) }
        ensures forms { IfOk result (λ g. g.forms.items ≡ walk.forms.items) }
        ensures are { IfOk result ArePathFacts }
    {
        let SymbolicExecution {
            forms,
            tests,
            free: _,
        } = walk;
        let mut premises = pad_rows(alloc, rows, tests.dims())?;
        push_rows(&tests, &mut premises)?;
        Ok(PathFacts { premises, forms })
    }

    /// The claim over the symbols: a row over the variables, or that nothing is left.
    pub fn claim(&self, alloc: Global, claim: Option<&Row>) -> Result<Row, RowError>
        requires are { ArePathFacts self.now }
        requires row { IfSome claim (λ r. 0 < length r.now) }
        ensures made { IfOk result (λ r.
            claimed (claim_row claim.entry) (suc self.now.premises.dims) self.now.forms.items
            ≡ Ok r) }
        ensures width { IfOk result (λ r. length r ≡ suc self.now.premises.dims) }
        ensures excess { IfErr result (IsExcessOf
            (claimed (claim_row claim.entry) (suc self.now.premises.dims) self.now.forms.items)) }
    {
        let dims = self.premises.dims();
        match claim {
            Some(row) => compose(alloc, dims + 1, row, self.forms.as_slice()),
            None => {
                let row = Row::unit(alloc, dims, 0, -1)?;
                Ok(row)
            }
        }
    }

    /// Whether the multipliers show the claim.
    fn answer(
        &self,
        alloc: Global,
        claim: Option<&Row>,
        multipliers: &Multipliers,
    ) -> Result<Answer, AllocError>
        requires are { ArePathFacts self.now }
        requires row { IfSome claim (λ r. 0 < length r.now) }
        requires count { length multipliers.now.factors.items ≡ length self.now.premises.rows }
        ensures { IfOk result (λ a. answer_view a ≡ answered (constraints self.now.premises)
            (claimed (claim_row claim.entry) (suc self.now.premises.dims) self.now.forms.items)
            (multipliers_view multipliers.now)) }
    {
        match self.claim(alloc, claim) {
            Ok(row) => Ok(check(&self.premises, &row, multipliers)),
            Err(RowError::Excess(_)) => Ok(Answer::Wide),
            Err(RowError::Memory) => Err(AllocError),
        }
    }
}

/// A path from a source with rows: how many premises its lines have, and its grounds, unless a form of it passes.
#[derive(Drop)]
pub struct PathCheck {
    count: usize,
    pub facts: Option<PathFacts>,
}

impl PathCheck {
    /// Of a path from a source with these rows.
    pub fn of(alloc: Global, rows: &ConSys, path: &[&Change]) -> Result<PathCheck, AllocError>
        requires { rows.now.dims < 2 ^ 31 }
        ensures track { IfOk result
            (IsPathCheck rows.now.dims (constraints rows.now) (all_done path.now)) }
        ensures whole { IfOk result IsWhole }
    {
        let Some(count) = count_premises(rows, path) else {
            return Err(AllocError);
        };
        match SymbolicExecution::execute(alloc, rows.dims(), path) {
            Ok(walk) => {
                let grounds = PathFacts::of(alloc, rows, walk)?;
                Ok(PathCheck {
                    count,
                    facts: Some(grounds),
                })
            }
            Err(RowError::Excess(_)) => Ok(PathCheck { count, facts: None }),
            Err(RowError::Memory) => Err(AllocError),
        }
    }

    /// Whether the multipliers show the claim; `Wide` if a form of the path passes.
    fn answer(
        &self,
        alloc: Global,
        claim: Option<&Row>,
        multipliers: &Multipliers,
    ) -> Result<Answer, AllocError>
        requires whole { IsWhole self.now }
        requires row { IfSome claim (λ r. 0 < length r.now) }
        requires count { length multipliers.now.factors.items ≡ self.now.count }
        ensures { IfOk result (λ o. answer_view o ≡
            answer_by self.now.facts (claim_row claim.entry) (multipliers_view multipliers.now)) }
    {
        match &self.facts {
            Some(grounds) => grounds.answer(alloc, claim, multipliers),
            None => Ok(Answer::Wide),
        }
    }

    /// Where the next line begins; the line that begins here has to have this word, and to show the claim.
    fn show(
        &self,
        alloc: Global,
        bytes: &[u8],
        at: usize,
        word: &[u8],
        claim: Option<&Row>,
    ) -> Result<usize, VerifyError>
        requires whole { IsWhole self.now }
        requires short { length bytes.now < 2 ^ 31 }
        requires place { at ≤ length bytes.now }
        requires word { 0 < length word.now }
        requires row { IfSome claim (λ r. 0 < length r.now) }
        ensures told { IsJudgedAs (left_at bytes.now)
            (line_by self.now word.now (claim_row claim.entry) (left_at bytes.now at)) result }
        ensures within { IfOk result (λ next. next ≤ length bytes.now) }
    {
        let shown = take_multipliers(alloc, bytes, at, word, self.count)?;
        let MultiplierLine {
            multipliers,
            after: behind,
        } = shown;
        let answer = self.answer(alloc, claim, &multipliers)?;
        take_answer(bytes, at, behind, answer)
    }

    /// Where the next line begins after the claims of a row: an equality has two, its row and then minus that.
    fn show_row(
        &self,
        alloc: Global,
        bytes: &[u8],
        at: usize,
        row: &Row,
        kind: ConKind,
    ) -> Result<usize, VerifyError>
        requires whole { IsWhole self.now }
        requires short { length bytes.now < 2 ^ 31 }
        requires place { at ≤ length bytes.now }
        requires row { 0 < length row.now }
        ensures told { IsJudgedAs (left_at bytes.now)
            (row_by self.now (record { row = row.now; equal = is_equality kind })
            (left_at bytes.now at)) result }
        ensures within { IfOk result (λ next. next ≤ length bytes.now) }
    {
        let next = self.show(alloc, bytes, at, b"by", Some(row))?;
        if kind.is_equality() {
            let opposite = row.negate()?;
            self.show(alloc, bytes, next, b"by", Some(&opposite))
        } else {
            Ok(next)
        }
    }

    /// Where the next line begins after the claims of the rows, in order.
    fn show_rows(
        &self,
        alloc: Global,
        bytes: &[u8],
        at: usize,
        rows: &ConSys,
    ) -> Result<usize, VerifyError>
        requires whole { IsWhole self.now }
        requires short { length bytes.now < 2 ^ 31 }
        requires place { at ≤ length bytes.now }
        ensures told { IsJudgedAs (left_at bytes.now)
            (judged_in_turn (row_by self.now) (constraints rows.now) (left_at bytes.now at))
            result }
        ensures within { IfOk result (λ next. next ≤ length bytes.now) }
    {
        let mut next = at;
        for place in 0..rows.len() {
            let (row, kind) = rows.at(place);
            match self.show_row(alloc, bytes, next, row, kind) {
                Ok(behind) => next = behind,
                Err(error) => return Err(error),
            }
        }
        Ok(next)
    }

    /// Where the next line begins after what is said of the path: that nothing goes along it.
    pub fn show_dead(&self, alloc: Global, bytes: &[u8], at: usize) -> Result<usize, VerifyError>
        requires whole { IsWhole self.now }
        requires short { length bytes.now < 2 ^ 31 }
        requires place { at ≤ length bytes.now }
        ensures told { IsJudgedAs (left_at bytes.now)
            (line_by self.now (codes "dead") None (left_at bytes.now at)) result }
        ensures within { IfOk result (λ next. next ≤ length bytes.now) }
    {
        self.show(alloc, bytes, at, b"dead", None)
    }

    /// Where the next line begins after what is said of the path: that nothing goes along it, or claim by claim; an
    /// empty target has one claim.
    pub fn show_target(
        &self,
        alloc: Global,
        bytes: &[u8],
        at: usize,
        target: Option<&ConSys>,
    ) -> Result<usize, VerifyError>
        requires whole { IsWhole self.now }
        requires short { length bytes.now < 2 ^ 31 }
        requires place { at ≤ length bytes.now }
        ensures told { IsJudgedAs (left_at bytes.now)
            (lines_by self.now (target_rows target.entry) (left_at bytes.now at)) result }
        ensures within { IfOk result (λ next. next ≤ length bytes.now) }
    {
        if is_dead_line(bytes, at) {
            return self.show_dead(alloc, bytes, at);
        }
        match target {
            None => self.show(alloc, bytes, at, b"by", None),
            Some(rows) => self.show_rows(alloc, bytes, at, rows),
        }
    }
}
