//! Trees of sources. A chain of operators is its first operand and a list of the others, so a tree is no deeper than
//! its source is nested.
//! A part keeps the places that refusals and points name, and no others.

ghost use Rattle.std.specs.Prelude.{◌≡◌, ◌≢◌, ◌≤◌, ◌<◌, map, IfOk, MatchResult};
ghost use Rattle.lra_syntax.specs.Trees.{ExprTree, value, test, conjunction};
ghost use Rattle.lra_syntax.specs.Views.{all_tests, any_conjunction, expr_view, test_view, conjunction_view, cond_view};
ghost use Rattle.lra_syntax.specs.{Branches.size_left, declared.trees.BlockItem.size-BlockItem};
ghost use Rattle.lra_syntax.specs.{declared.trees.CaseItem.size-CaseItem, declared.trees.Stmt.size-Stmt};

use crate::tokens::Word;
use lra_base::{CaseLabel, Comparison, NumberType, Operator, Place};
use std::alloc::AllocError;

/// A name and its place.
pub struct Identifier {
    pub word: Word,
    pub place: Place,
}

impl Drop for Identifier {
    fn drop(self) {
        let Identifier { word: _, place: _ } = self;
    }
}

impl Identifier {
    /// A copy, equal to this identifier.
    pub fn copy(&self, alloc: std::alloc::Global) -> Result<Identifier, AllocError>
        ensures { IfOk result (λ x. x ≡ self.now) }
    {
        Ok(Identifier {
            word: self.word.copy(alloc)?,
            place: self.place,
        })
    }
}

/// A sign, a literal, a variable, `input()`, an expression in parentheses, or an array's element.
#[cycle(expression)]
pub enum Unary {
    Negated(Box<Unary>),
    Positive(Box<Unary>),
    Literal(NumberType, u64),
    Variable(Identifier),
    Input,
    Group(Box<Expr>),
    /// The array's name, and the index.
    Element(Identifier, Box<Expr>),
}

impl Drop for Unary {
    #[cycle(expression_drop)]
    fn drop(self) {
        match self {
            Unary::Negated(_) => {}
            Unary::Positive(_) => {}
            Unary::Literal(_, _) => {}
            Unary::Variable(_) => {}
            Unary::Input => {}
            Unary::Group(_) => {}
            Unary::Element(_, _) => {}
        }
    }
}

/// `*`, `/`, `%`
#[derive(Clone, Copy, PartialEq, Eq, Debug)]
pub enum FactorOperator {
    Times,
    Over,
    Modulo,
}

/// An operator `*`, `/` or `%`, and its right operand.
#[cycle(expression)]
pub struct Factor {
    pub operator: FactorOperator,
    pub unary: Unary,
}

impl Drop for Factor {
    #[cycle(expression_drop)]
    fn drop(self) {
        let Factor {
            operator: _,
            unary: _,
        } = self;
    }
}

/// A chain of `*`, `/` and `%`, from the left.
#[cycle(expression)]
pub struct Term {
    pub first: Unary,
    pub rest: Vec<Factor>,
}

impl Drop for Term {
    #[cycle(expression_drop)]
    fn drop(self) {
        let Term { first: _, rest: _ } = self;
    }
}

/// `+`, `-`
#[derive(Clone, Copy, PartialEq, Eq, Debug)]
pub enum SumOperator {
    Plus,
    Minus,
}

/// An operator `+` or `-`, and its right operand.
#[cycle(expression)]
pub struct Summand {
    pub operator: SumOperator,
    pub term: Term,
}

impl Drop for Summand {
    #[cycle(expression_drop)]
    fn drop(self) {
        let Summand {
            operator: _,
            term: _,
        } = self;
    }
}

/// A chain of `+` and `-`, from the left.
#[cycle(expression)]
pub struct Expr {
    pub first: Term,
    pub rest: Vec<Summand>,
}

impl Drop for Expr {
    #[cycle(expression_drop)]
    fn drop(self) {
        let Expr { first: _, rest: _ } = self;
    }
}

/// What `!` stands before.
#[cycle(condition)]
pub enum Negation {
    Again(Box<Negation>),
    Operand(Unary),
    Strict(Box<Cond>),
}

impl Drop for Negation {
    #[cycle(condition_drop)]
    fn drop(self) {
        match self {
            Negation::Again(_) => {}
            Negation::Operand(_) => {}
            Negation::Strict(_) => {}
        }
    }
}

/// A part of a chain of `&&`. A group isn't an expression alone.
#[cycle(condition)]
pub enum Test {
    Opposite(Negation),
    Value(Expr),
    Compare(Expr, Comparison, Expr),
    Group(Box<Cond>),
}

impl Drop for Test {
    #[cycle(condition_drop)]
    fn drop(self) {
        match self {
            Test::Opposite(_) => {}
            Test::Value(_) => {}
            Test::Compare(_, _, _) => {}
            Test::Group(_) => {}
        }
    }
}

impl Test {
    /// The expression of a test that is one alone, or else the test.
    pub fn into_value(self) -> Result<Expr, Test>
        ensures { MatchResult result (λ e. test_view self ≡ value (expr_view e))
            (λ t. (test_view t ≡ test_view self) × ((e : ExprTree) → test_view self ≢ value e)) }
    {
        match self {
            Test::Value(expr) => Ok(expr),
            Test::Opposite(negation) => Err(Test::Opposite(negation)),
            Test::Compare(left, comparison, right) => Err(Test::Compare(left, comparison, right)),
            Test::Group(cond) => Err(Test::Group(cond)),
        }
    }
}

/// A chain of `&&`.
#[cycle(condition)]
pub struct Conjunction {
    pub first: Test,
    pub rest: Vec<Test>,
}

impl Drop for Conjunction {
    #[cycle(condition_drop)]
    fn drop(self) {
        let Conjunction { first: _, rest: _ } = self;
    }
}

impl Conjunction {
    /// The first test and the others.
    pub fn into_parts(self) -> (Test, Vec<Test>)
        ensures { conjunction_view self ≡ all_tests (test (test_view result.0)) (map test_view result.1.items) }
    {
        let Conjunction { first, rest } = self;
        (first, rest)
    }
}

/// A chain of `||`.
#[cycle(condition)]
pub struct Cond {
    pub first: Conjunction,
    pub rest: Vec<Conjunction>,
}

impl Drop for Cond {
    #[cycle(condition_drop)]
    fn drop(self) {
        let Cond { first: _, rest: _ } = self;
    }
}

impl Cond {
    /// The first chain of `&&` and the others.
    pub fn into_parts(self) -> (Conjunction, Vec<Conjunction>)
        ensures { cond_view self ≡ any_conjunction (conjunction (conjunction_view result.0))
            (map conjunction_view result.1.items) }
    {
        let Cond { first, rest } = self;
        (first, rest)
    }
}

/// A call's arguments, in text order.
pub struct Arguments {
    pub items: Vec<Expr>,
}

impl Drop for Arguments {
    fn drop(self) {
        let Arguments { items: _ } = self;
    }
}

/// A call: the function's name, and the arguments.
pub struct Call {
    pub name: Identifier,
    pub arguments: Arguments,
}

impl Drop for Call {
    fn drop(self) {
        let Call {
            name: _,
            arguments: _,
        } = self;
    }
}

/// What a variable gets, or a `return` gives.
pub enum Rvalue {
    Value(Expr),
    Result(Call),
}

impl Drop for Rvalue {
    fn drop(self) {
        match self {
            Rvalue::Value(_) => {}
            Rvalue::Result(_) => {}
        }
    }
}

/// `++`, `--`
#[derive(Clone, Copy, PartialEq, Eq, Debug)]
pub enum Step {
    Increment,
    Decrement,
}

/// An assignment.
pub enum Assign {
    /// `x = rvalue`
    Set(Identifier, Rvalue),
    /// `x[index] = rvalue`
    SetElement(Identifier, Expr, Rvalue),
    /// `x op= e`
    Update(Identifier, Operator, Expr),
    /// `x++`
    After(Identifier, Step),
    /// `++x`, with the place of the operator
    Before(Place, Step, Identifier),
}

impl Drop for Assign {
    fn drop(self) {
        match self {
            Assign::Set(_, _) => {}
            Assign::SetElement(_, _, _) => {}
            Assign::Update(_, _, _) => {}
            Assign::After(_, _) => {}
            Assign::Before(_, _, _) => {}
        }
    }
}

/// How many elements an array has, and the place of the literal that says so.
#[derive(Clone, Copy, PartialEq, Eq, Debug)]
pub struct ArrayLength {
    pub value: u64,
    pub place: Place,
}

/// What a name is declared as.
pub enum ScalarOrArray<T> {
    /// A scalar, with a value if it has one.
    Scalar(Option<T>),
    Array(ArrayLength),
}

impl<T: Drop> Drop for ScalarOrArray<T> {
    fn drop(self) {
        match self {
            ScalarOrArray::Scalar(_) => {}
            ScalarOrArray::Array(_) => {}
        }
    }
}

/// A variable or an array that is declared.
pub struct Declarator {
    pub name: Identifier,
    pub shape: ScalarOrArray<Rvalue>,
}

impl Drop for Declarator {
    fn drop(self) {
        let Declarator { name: _, shape: _ } = self;
    }
}

/// The type and the declarators of one declaration; there is one declarator at least.
pub struct Declaration {
    pub number_type: NumberType,
    pub first: Declarator,
    pub rest: Vec<Declarator>,
}

impl Drop for Declaration {
    fn drop(self) {
        let Declaration {
            number_type: _,
            first: _,
            rest: _,
        } = self;
    }
}

/// How a `for` begins.
pub enum Init {
    Nothing,
    Declaration(Declaration),
    Assign(Assign),
}

impl Drop for Init {
    fn drop(self) {
        match self {
            Init::Nothing => {}
            Init::Declaration(_) => {}
            Init::Assign(_) => {}
        }
    }
}

/// A statement, with the place of its first token if no part of it has that place.
#[cycle(statement)]
pub enum Stmt {
    Block(Block),
    Nothing(Place),
    Assign(Assign),
    Call(Call),
    If(Place, Cond, Box<Stmt>),
    IfElse(Place, Cond, Box<Stmt>, Box<Stmt>),
    While(Place, Cond, Box<Stmt>),
    For(Place, Init, Option<Cond>, Option<Assign>, Box<Stmt>),
    Break(Place),
    Continue(Place),
    Return(Place, Option<Rvalue>),
    Assert(Place, Cond),
    Assume(Place, Cond),
    Switch(Place, Expr, Cases),
}

impl Drop for Stmt {
    fn drop(self) {
        let _branches = self.into_branches();
    }
}

impl Stmt {
    /// The statements directly in this one; all else of it is dropped. Never inlined, so that no room for the rest is
    /// held while these statements are dropped.
    #[inline(never)]
    fn into_branches(self) -> Branches
        ensures { size_left result ≤ size-Stmt self }
    {
        match self {
            Stmt::Block(block) => Branches::Items(block),
            Stmt::If(_, _, branch) => Branches::One(branch),
            Stmt::IfElse(_, _, branch, other) => Branches::Two(branch, other),
            Stmt::While(_, _, body) => Branches::One(body),
            Stmt::For(_, _, _, _, body) => Branches::One(body),
            Stmt::Nothing(_) => Branches::Nothing,
            Stmt::Assign(_) => Branches::Nothing,
            Stmt::Call(_) => Branches::Nothing,
            Stmt::Break(_) => Branches::Nothing,
            Stmt::Continue(_) => Branches::Nothing,
            Stmt::Return(_, _) => Branches::Nothing,
            Stmt::Assert(_, _) => Branches::Nothing,
            Stmt::Assume(_, _) => Branches::Nothing,
            Stmt::Switch(_, _, cases) => Branches::Cases(cases),
        }
    }
}

/// The statements directly in a statement, which are to be dropped.
enum Branches {
    Nothing,
    Items(Block),
    Cases(Cases),
    One(Box<Stmt>),
    Two(Box<Stmt>, Box<Stmt>),
}

impl Drop for Branches {
    /// Goes along the last of them without a call.
    #[cycle(statement_drop)]
    fn drop(mut self) {
        'branches: loop {
            match self {
                Branches::Nothing => return,
                Branches::Items(_block) => return,
                Branches::Cases(_cases) => return,
                Branches::One(branch) => self = open_branch(branch),
                Branches::Two(branch, other) => {
                    let _first = open_branch(branch);
                    self = open_branch(other);
                }
            }
        }
    }
}

/// The statements directly in a branch.
#[inline(never)]
fn open_branch(branch: Box<Stmt>) -> Branches
    ensures { size_left result ≤ size-Stmt branch.value }
{
    Box::into_inner(branch).into_branches()
}

/// What a block has between its braces.
#[cycle(statement)]
pub enum BlockItem {
    Declaration(Declaration),
    Statement(Stmt),
}

impl Drop for BlockItem {
    #[cycle(statement_drop)]
    fn drop(self) {
        let _branches = self.into_branches();
    }
}

impl BlockItem {
    /// The statements directly in the statement that this is; all else of it is dropped.
    #[inline(never)]
    fn into_branches(self) -> Branches
        ensures { size_left result < size-BlockItem self }
    {
        match self {
            BlockItem::Declaration(_) => Branches::Nothing,
            BlockItem::Statement(stmt) => stmt.into_branches(),
        }
    }
}

/// A block's items, and the place of its `}`.
#[cycle(statement)]
pub struct Block {
    pub items: Vec<BlockItem>,
    pub end: Place,
}

impl Drop for Block {
    #[cycle(statement_drop)]
    fn drop(self) {
        let Block { items: _, end: _ } = self;
    }
}

/// A label of a `switch`, or a statement among them.
#[cycle(statement)]
pub enum CaseItem {
    Label(PlacedLabel),
    Stated(Stmt),
}

impl Drop for CaseItem {
    #[cycle(statement_drop)]
    fn drop(self) {
        let _branches = self.into_branches();
    }
}

impl CaseItem {
    /// The statements directly in the statement that this is; all else of it is dropped.
    #[inline(never)]
    fn into_branches(self) -> Branches
        ensures { size_left result < size-CaseItem self }
    {
        match self {
            CaseItem::Label(_) => Branches::Nothing,
            CaseItem::Stated(stmt) => stmt.into_branches(),
        }
    }
}

/// What a `switch` has between its braces: labels and statements in text order, all in one list.
#[cycle(statement)]
pub struct Cases {
    pub items: Vec<CaseItem>,
}

impl Drop for Cases {
    #[cycle(statement_drop)]
    fn drop(self) {
        let Cases { items: _ } = self;
    }
}

/// A parameter.
pub struct Parameter {
    pub number_type: NumberType,
    pub name: Identifier,
}

impl Drop for Parameter {
    fn drop(self) {
        let Parameter {
            number_type: _,
            name: _,
        } = self;
    }
}

/// A function's parameters, in text order.
pub struct Parameters {
    pub items: Vec<Parameter>,
}

impl Drop for Parameters {
    fn drop(self) {
        let Parameters { items: _ } = self;
    }
}

/// A function with its body.
pub struct Function {
    /// The type of its result; `void` has none.
    pub result_type: Option<NumberType>,
    pub name: Identifier,
    pub parameters: Parameters,
    pub body: Block,
}

impl Drop for Function {
    fn drop(self) {
        let Function {
            result_type: _,
            name: _,
            parameters: _,
            body: _,
        } = self;
    }
}

/// A literal with its sign.
#[derive(Clone, Copy, PartialEq, Eq, Debug)]
pub struct SignedLiteral {
    pub value: i64,
    /// The place of the literal, which comes after the sign.
    pub place: Place,
}

/// A label of a `switch`, and its place: that of its literal, which comes after the sign, or of `default`.
#[derive(Clone, Copy, PartialEq, Eq, Debug)]
pub struct PlacedLabel {
    pub label: CaseLabel,
    pub place: Place,
}

/// A global variable or array.
pub struct Global {
    pub name: Identifier,
    /// A scalar's first value, if it has one.
    pub shape: ScalarOrArray<SignedLiteral>,
}

impl Drop for Global {
    fn drop(self) {
        let Global { name: _, shape: _ } = self;
    }
}

/// The type of one declaration, and the global variables and arrays that it declares; there is one at least.
pub struct Globals {
    pub number_type: NumberType,
    pub first: Global,
    pub rest: Vec<Global>,
}

impl Drop for Globals {
    fn drop(self) {
        let Globals {
            number_type: _,
            first: _,
            rest: _,
        } = self;
    }
}

/// A part of a source.
pub enum ExternalDeclaration {
    /// It declares nothing, and nothing of it is kept.
    Prototype,
    Globals(Globals),
    Function(Function),
}

impl Drop for ExternalDeclaration {
    fn drop(self) {
        match self {
            ExternalDeclaration::Prototype => {}
            ExternalDeclaration::Globals(_) => {}
            ExternalDeclaration::Function(_) => {}
        }
    }
}

/// A source, and the place of its end.
pub struct TranslationUnit {
    pub items: Vec<ExternalDeclaration>,
    pub end: Place,
}

impl Drop for TranslationUnit {
    fn drop(self) {
        let TranslationUnit { items: _, end: _ } = self;
    }
}
