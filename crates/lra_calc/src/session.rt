//! What a script has made and printed so far.

ghost use Rattle.std.specs.List.{All};
ghost use Rattle.std.specs.Prelude.{◌≡◌, ◌≤◌, ◌++◌, Some, map, string_bytes, IfOk, IfErr, OnOk};
ghost use Rattle.lra_script.specs.LineForms as form;
ghost use Rattle.lra_script.specs.LineForms.{greatest_dims};
ghost use Rattle.lra_script.specs.Views.{constraint_of, generator_view, recipe_said, question_said, said, IsLine};
ghost use Rattle.lra_script.specs.Views.{IsRecipe, IsQuestion, IsDivided, HasDivisor};
ghost use Rattle.lra_calc.specs.Script as script;
ghost use Rattle.lra_calc.specs.Views.{session_of, made_of, answer_of, IsSession, IsUnknown, Gives};

use crate::answering::{Answer, hold, include, maximise, show};
use crate::making::{
    Made, combine, form_of, make_of_generators, make_of_rows, map_set, without_coordinate,
    wrong_coordinate, wrong_generator, wrong_row, wrong_width,
};
use crate::refusal::{Fault, LineError};
use crate::widening::{limit, widen};
use lra_poly_widening::Poly;
use lra_script::{Combination, Constraint, Generator, Line, Mapping, Question, Recipe};
use std::alloc::{AllocError, Global};
use std::collections::BTreeMap;

/// A script after its `dims`: what each name stands for, what was printed, and the first line that was flagged.
#[derive(Drop)]
pub struct Session {
    pub dims: usize,
    pub made: BTreeMap<String, Poly>,
    pub printed: String,
    pub flagged: Option<usize>,
}

/// The first flagged line after a line, which is flagged or not.
fn find_flagged(number: usize, is_flagged: bool, flagged: Option<usize>) -> Option<usize>
    ensures { result ≡ script.flagged_by number is_flagged flagged }
{
    if is_flagged {
        flagged.or(Some(number))
    } else {
        flagged
    }
}

/// Why a line is not carried out that names a set that wasn't made.
fn unknown_name(alloc: Global, name: &str) -> LineError
    ensures { IsUnknown name.now None result }
{
    match String::from_str(alloc, name) {
        Ok(name) => LineError::Refused(Fault::UnknownName(name)),
        Err(_) => LineError::Memory,
    }
}

impl Session {
    /// Nothing made, for n dimensions.
    pub fn new(alloc: Global, n: usize) -> Session
        requires { n ≤ greatest_dims }
        ensures session { session_of result ≡ script.started n }
        ensures sound { IsSession result }
    {
        Session {
            dims: n,
            made: BTreeMap::new(alloc),
            printed: String::new(alloc),
            flagged: None,
        }
    }

    /// The set that the name stands for.
    fn set(&self, alloc: Global, name: &str) -> Result<&Poly, LineError>
        requires { IsSession self.now }
        ensures found { IfOk result (λ p. (session_of self.now).made name.now ≡ Some p.now) }
        ensures dims { IfOk result (λ p. p.now.dims ≡ self.now.dims) }
        ensures unknown { IfErr result (IsUnknown name.now ((session_of self.now).made name.now)) }
    {
        match self.made.get(name) {
            Some(set) => Ok(set),
            None => Err(unknown_name(alloc, name)),
        }
    }

    fn constrain(&self, alloc: Global, rows: &[Constraint]) -> Result<Made, LineError>
        requires { IsSession self.now }
        ensures gives { Gives made_of result
            (script.MadeBy (session_of self.now) (form.Con (map constraint_of rows.now))) }
        ensures dims { IfOk result (λ m. m.polyhedron.dims ≡ self.now.dims) }
    {
        if let Some(fault) = wrong_row(self.dims, rows) {
            return Err(LineError::Refused(fault));
        }
        let made = make_of_rows(alloc, self.dims, rows)?;
        Ok(made)
    }

    fn generate(&self, alloc: Global, generators: &[Generator]) -> Result<Made, LineError>
        requires session { IsSession self.now }
        requires divided { All (λ g. IsDivided g.kind g.numbers) generators.now }
        ensures gives { Gives made_of result
            (script.MadeBy (session_of self.now) (form.Gen (map generator_view generators.now))) }
        ensures dims { IfOk result (λ m. m.polyhedron.dims ≡ self.now.dims) }
    {
        if let Some(fault) = wrong_generator(self.dims, generators) {
            return Err(LineError::Refused(fault));
        }
        let made = make_of_generators(alloc, self.dims, generators)?;
        Ok(made)
    }

    fn combine(
        &self,
        alloc: Global,
        how: Combination,
        first: &str,
        second: &str,
    ) -> Result<Made, LineError>
        requires { IsSession self.now }
        ensures gives { Gives made_of result
            (script.MadeBy (session_of self.now) (form.Combine how first.now second.now)) }
        ensures dims { IfOk result (λ m. m.polyhedron.dims ≡ self.now.dims) }
    {
        let first = self.set(alloc, first)?;
        let second = self.set(alloc, second)?;
        let made = combine(how, first, second)?;
        Ok(made)
    }

    fn widen(&self, alloc: Global, first: &str, second: &str) -> Result<Made, LineError>
        requires { IsSession self.now }
        ensures gives { Gives made_of result
            (script.MadeBy (session_of self.now) (form.Widen first.now second.now)) }
        ensures dims { IfOk result (λ m. m.polyhedron.dims ≡ self.now.dims) }
    {
        let first = self.set(alloc, first)?;
        let second = self.set(alloc, second)?;
        widen(alloc, first, second)
    }

    fn limit(
        &self,
        alloc: Global,
        first: &str,
        second: &str,
        given: &[Constraint],
    ) -> Result<Made, LineError>
        requires { IsSession self.now }
        ensures gives { Gives made_of result (script.MadeBy (session_of self.now)
            (form.Limited first.now second.now (map constraint_of given.now))) }
        ensures dims { IfOk result (λ m. m.polyhedron.dims ≡ self.now.dims) }
    {
        let first = self.set(alloc, first)?;
        let second = self.set(alloc, second)?;
        if let Some(fault) = wrong_row(self.dims, given) {
            return Err(LineError::Refused(fault));
        }
        limit(alloc, first, second, given)
    }

    fn map(
        &self,
        alloc: Global,
        how: Mapping,
        from: &str,
        coordinate: usize,
        numbers: &[i64],
    ) -> Result<Made, LineError>
        requires { IsSession self.now }
        ensures gives { Gives made_of result
            (script.MadeBy (session_of self.now) (form.Map how from.now coordinate numbers.now)) }
        ensures dims { IfOk result (λ m. m.polyhedron.dims ≡ self.now.dims) }
    {
        if let Some(fault) = wrong_coordinate(self.dims, coordinate) {
            return Err(LineError::Refused(fault));
        }
        let set = self.set(alloc, from)?;
        if let Some(fault) = wrong_width(numbers.len(), self.dims + 1) {
            return Err(LineError::Refused(fault));
        }
        let form = form_of(alloc, numbers)?;
        let made = map_set(how, set, coordinate, &form)?;
        Ok(made)
    }

    fn forget(&self, alloc: Global, from: &str, coordinate: usize) -> Result<Made, LineError>
        requires { IsSession self.now }
        ensures gives { Gives made_of result
            (script.MadeBy (session_of self.now) (form.Forget from.now coordinate)) }
        ensures dims { IfOk result (λ m. m.polyhedron.dims ≡ self.now.dims) }
    {
        if let Some(fault) = wrong_coordinate(self.dims, coordinate) {
            return Err(LineError::Refused(fault));
        }
        let set = self.set(alloc, from)?;
        let made = without_coordinate(set, coordinate)?;
        Ok(made)
    }

    /// What a recipe makes.
    fn make(&self, alloc: Global, recipe: &Recipe) -> Result<Made, LineError>
        requires session { IsSession self.now }
        requires recipe { IsRecipe recipe.now }
        ensures gives { Gives made_of result (script.MadeBy (session_of self.now) (recipe_said recipe.now)) }
        ensures dims { IfOk result (λ m. m.polyhedron.dims ≡ self.now.dims) }
    {
        match recipe {
            Recipe::Con(rows) => self.constrain(alloc, rows),
            Recipe::Gen(generators) => self.generate(alloc, generators),
            Recipe::Combine(how, first, second) => self.combine(
                alloc,
                *how,
                first.as_str(),
                second.as_str(),
            ),
            Recipe::Widen(first, second) => self.widen(alloc, first.as_str(), second.as_str()),
            Recipe::Limited(first, second, given) => {
                self.limit(alloc, first.as_str(), second.as_str(), given)
            }
            Recipe::Map(how, from, coordinate, numbers) => {
                self.map(alloc, *how, from.as_str(), *coordinate, numbers)
            }
            Recipe::Forget(from, coordinate) => self.forget(alloc, from.as_str(), *coordinate),
        }
    }

    fn show(&self, alloc: Global, name: &str) -> Result<Answer, LineError>
        requires { IsSession self.now }
        ensures { Gives answer_of result (script.AnswerTo (session_of self.now) (form.Show name.now)) }
    {
        let set = self.set(alloc, name)?;
        let answer = show(alloc, name, set)?;
        Ok(answer)
    }

    fn hold(&self, alloc: Global, name: &str, point: &[i128]) -> Result<Answer, LineError>
        requires session { IsSession self.now }
        requires divisor { HasDivisor point.now }
        ensures { Gives answer_of result (script.AnswerTo (session_of self.now) (form.Holds name.now point.now)) }
    {
        let set = self.set(alloc, name)?;
        if let Some(fault) = wrong_width(point.len(), self.dims + 1) {
            return Err(LineError::Refused(fault));
        }
        let answer = hold(alloc, name, set, point)?;
        Ok(answer)
    }

    fn include(&self, alloc: Global, first: &str, second: &str) -> Result<Answer, LineError>
        requires { IsSession self.now }
        ensures { Gives answer_of result (script.AnswerTo (session_of self.now) (form.Include first.now second.now)) }
    {
        let set = self.set(alloc, first)?;
        let other = self.set(alloc, second)?;
        let answer = include(alloc, first, second, set, other)?;
        Ok(answer)
    }

    fn maximise(&self, alloc: Global, name: &str, numbers: &[i64]) -> Result<Answer, LineError>
        requires { IsSession self.now }
        ensures { Gives answer_of result (script.AnswerTo (session_of self.now) (form.Maximise name.now numbers.now)) }
    {
        let set = self.set(alloc, name)?;
        if let Some(fault) = wrong_width(numbers.len(), self.dims + 1) {
            return Err(LineError::Refused(fault));
        }
        let answer = maximise(alloc, name, set, numbers)?;
        Ok(answer)
    }

    /// The answer to a question.
    fn answer(&self, alloc: Global, question: &Question) -> Result<Answer, LineError>
        requires session { IsSession self.now }
        requires question { IsQuestion question.now }
        ensures { Gives answer_of result (script.AnswerTo (session_of self.now) (question_said question.now)) }
    {
        match question {
            Question::Show(name) => self.show(alloc, name.as_str()),
            Question::Holds(name, point) => self.hold(alloc, name.as_str(), point),
            Question::Include(first, second) => self.include(
                alloc,
                first.as_str(),
                second.as_str(),
            ),
            Question::Maximise(name, numbers) => self.maximise(alloc, name.as_str(), numbers),
        }
    }

    /// The name stands from now on for what the line of a number made.
    fn bind(
        &mut self,
        alloc: Global,
        number: usize,
        name: &str,
        made: Made,
    ) -> Result<(), AllocError>
        requires session { IsSession self.old }
        requires dims { made.polyhedron.dims ≡ self.old.dims }
        ensures named { OnOk result (session_of self.new
            ≡ script.made_as number name.now (made_of made) (session_of self.old)) }
        ensures sound { OnOk result (IsSession self.new) }
    {
        let Made {
            polyhedron,
            is_flagged,
        } = made;
        let name = String::from_str(alloc, name)?;
        self.made.insert(name, polyhedron)?;
        self.flagged = find_flagged(number, is_flagged, self.flagged);
        Ok(())
    }

    /// The answer of the line of a number follows what was printed.
    fn print(&mut self, number: usize, answer: &Answer) -> Result<(), AllocError>
        requires { IsSession self.old }
        ensures printed { OnOk result (session_of self.new
            ≡ script.printed_by number (answer_of answer.now) (session_of self.old)) }
        ensures sound { OnOk result (IsSession self.new) }
    {
        self.printed.push_str(answer.text.as_str())?;
        self.flagged = find_flagged(number, answer.is_wide, self.flagged);
        Ok(())
    }

    /// Carries out a line that makes a set.
    fn make_named(
        &mut self,
        alloc: Global,
        number: usize,
        name: &str,
        recipe: &Recipe,
    ) -> Result<(), LineError>
        requires session { IsSession self.old }
        requires recipe { IsRecipe recipe.now }
        ensures gives { Gives (λ _. session_of self.new) result
            (script.AfterLine number (session_of self.old) (form.Make name.now (recipe_said recipe.now))) }
        ensures sound { OnOk result (IsSession self.new) }
    {
        let made = self.make(alloc, recipe)?;
        self.bind(alloc, number, name, made)?;
        Ok(())
    }

    /// Carries out a line that asks.
    fn ask(&mut self, alloc: Global, number: usize, question: &Question) -> Result<(), LineError>
        requires session { IsSession self.old }
        requires question { IsQuestion question.now }
        ensures gives { Gives (λ _. session_of self.new) result
            (script.AfterLine number (session_of self.old) (form.Ask (question_said question.now))) }
        ensures sound { OnOk result (IsSession self.new) }
    {
        let answer = self.answer(alloc, question)?;
        self.print(number, &answer)?;
        Ok(())
    }

    /// Carries out a line after `dims`.
    pub fn carry_out(&mut self, alloc: Global, number: usize, line: &Line) -> Result<(), LineError>
        requires session { IsSession self.old }
        requires line { IsLine line.now }
        ensures gives { Gives (λ _. session_of self.new) result
            (script.AfterLine number (session_of self.old) (said line.now)) }
        ensures sound { OnOk result (IsSession self.new) }
    {
        match line {
            Line::Dims(_) => Err(LineError::Refused(Fault::BadLine)),
            Line::Make(name, recipe) => self.make_named(alloc, number, name.as_str(), recipe),
            Line::Ask(question) => self.ask(alloc, number, question),
        }
    }
}
