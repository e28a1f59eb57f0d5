//! Programs whose names are resolved. A chain of operators is its first operand and a list of the others, and a block a
//! list of items, so a program is no deeper than its source is nested. Labels count statements, declarators and the
//! ends of blocks from 1.

ghost use Rattle.std.specs.Prelude.{◌≡◌, ◌∷◌, [], map, IfOk};
ghost use Rattle.lra_program.specs.ProgramViews.{expr_view, element_view, operation_view, cond_view, argument_view};
ghost use Rattle.lra_program.specs.Step.{arguments_for};

use crate::arrays::Array;
use lra_base::{CaseLabel, Comparison, NumberType, Operator, Place};
use std::alloc::{AllocError, Global};

/// A variable of the whole program, or of the call that runs, by its place from the oldest on.
#[derive(Clone, Copy, PartialEq, Eq, Debug)]
pub enum Slot {
    Global(usize),
    Local(usize),
}

/// A variable with the type that its declaration has.
#[derive(Clone, Copy, PartialEq, Eq, Debug)]
pub struct Variable {
    pub slot: Slot,
    pub number_type: NumberType,
}

/// An expression.
#[cycle(resolved_expression)]
pub enum Expr {
    /// Of its type.
    Literal(NumberType, u64),
    Read(Variable),
    /// `input()`
    Input,
    Negate(Box<Expr>),
    /// From the left.
    Chain(Box<Expr>, Vec<Operation>),
    /// An array, the place where it is named, and the index.
    Element(Array, Place, Box<Expr>),
}

impl Drop for Expr {
    #[cycle(resolved_expression_drop)]
    fn drop(self) {
        match self {
            Expr::Literal(_, _) => {}
            Expr::Read(_) => {}
            Expr::Input => {}
            Expr::Negate(_) => {}
            Expr::Chain(_, _) => {}
            Expr::Element(_, _, _) => {}
        }
    }
}

/// An operator and its right operand.
#[cycle(resolved_expression)]
pub struct Operation {
    pub operator: Operator,
    pub operand: Expr,
}

impl Drop for Operation {
    #[cycle(resolved_expression_drop)]
    fn drop(self) {
        let Operation {
            operator: _,
            operand: _,
        } = self;
    }
}

/// An element, and the place where its array is named.
pub struct Element {
    pub array: Array,
    pub place: Place,
    pub index: Expr,
}

impl Drop for Element {
    fn drop(self) {
        let Element {
            array: _,
            place: _,
            index: _,
        } = self;
    }
}

/// A condition.
pub enum Cond {
    Compare(Comparison, Expr, Expr),
    /// `e != 0`
    Nonzero(Expr),
    Opposite(Box<Cond>),
    /// A chain of `&&`.
    All(Box<Cond>, Vec<Cond>),
    /// A chain of `||`.
    Any(Box<Cond>, Vec<Cond>),
}

impl Drop for Cond {
    fn drop(self) {
        match self {
            Cond::Compare(_, _, _) => {}
            Cond::Nonzero(_) => {}
            Cond::Opposite(_) => {}
            Cond::All(_, _) => {}
            Cond::Any(_, _) => {}
        }
    }
}

/// A call under a label of its own: the callee's place in the list of functions, and the arguments.
pub struct Call {
    pub label: usize,
    pub function: usize,
    pub arguments: Vec<Expr>,
}

impl Drop for Call {
    fn drop(self) {
        let Call {
            label: _,
            function: _,
            arguments: _,
        } = self;
    }
}

/// What a variable gets, or a `return` gives.
pub enum Rvalue {
    Value(Expr),
    Result(Call),
}

impl Drop for Rvalue {
    fn drop(self) {
        match self {
            Rvalue::Value(_) => {}
            Rvalue::Result(_) => {}
        }
    }
}

/// A declarator under its label, and what its variable gets, if anything.
pub struct Declarator {
    pub label: usize,
    pub number_type: NumberType,
    pub rvalue: Option<Rvalue>,
}

impl Drop for Declarator {
    fn drop(self) {
        let Declarator {
            label: _,
            number_type: _,
            rvalue: _,
        } = self;
    }
}

/// A statement under its label.
#[cycle(resolved_statement)]
pub enum Stmt {
    /// No `else`, or no step of a `for`.
    Absent,
    /// `;`
    Nothing(usize),
    /// A block's items, and the label of its `}`.
    Block(BlockItems, usize),
    Assign(usize, Variable, Rvalue),
    /// An element gets a value.
    Write(usize, Element, Rvalue),
    Call(usize, Call),
    /// The branch where the condition is true, and the one where it is false.
    If(usize, Cond, Box<Stmt>, Box<Stmt>),
    /// The body, and the step after each round.
    Loop(usize, Cond, Box<Stmt>, Box<Stmt>),
    /// A `for` loop; the variables that `init` declares live at its label too.
    For {
        label: usize,
        init: BlockItems,
        cond: Cond,
        body: Box<Stmt>,
        step: Box<Stmt>,
    },
    Break(usize),
    Continue(usize),
    Return(usize, Option<Rvalue>),
    Assert(usize, Cond),
    Assume(usize, Cond),
    /// Labels and statements in text order, all in one list.
    Switch(usize, Expr, Vec<CaseItem>),
}

impl Drop for Stmt {
    #[cycle(resolved_statement_drop)]
    fn drop(self) {
        match self {
            Stmt::Absent => {}
            Stmt::Nothing(_) => {}
            Stmt::Block(_, _) => {}
            Stmt::Assign(_, _, _) => {}
            Stmt::Write(_, _, _) => {}
            Stmt::Call(_, _) => {}
            Stmt::If(_, _, _, _) => {}
            Stmt::Loop(_, _, _, _) => {}
            Stmt::For {
                label: _,
                init: _,
                cond: _,
                body: _,
                step: _,
            } => {}
            Stmt::Break(_) => {}
            Stmt::Continue(_) => {}
            Stmt::Return(_, _) => {}
            Stmt::Assert(_, _) => {}
            Stmt::Assume(_, _) => {}
            Stmt::Switch(_, _, _) => {}
        }
    }
}

/// A label of a `switch`, or a statement.
#[cycle(resolved_statement)]
pub enum CaseItem {
    Label(CaseLabel),
    Stated(Stmt),
}

impl Drop for CaseItem {
    #[cycle(resolved_statement_drop)]
    fn drop(self) {
        match self {
            CaseItem::Label(_) => {}
            CaseItem::Stated(_) => {}
        }
    }
}

/// A declarator of a block's declarations, or a statement.
#[cycle(resolved_statement)]
pub enum BlockItem {
    Declaration(Declarator),
    /// A declarator's label, and its array.
    Array(usize, Array),
    Statement(Stmt),
}

impl Drop for BlockItem {
    #[cycle(resolved_statement_drop)]
    fn drop(self) {
        match self {
            BlockItem::Declaration(_) => {}
            BlockItem::Array(_, _) => {}
            BlockItem::Statement(_) => {}
        }
    }
}

/// A block's items in text order.
#[cycle(resolved_statement)]
pub struct BlockItems {
    pub items: Vec<BlockItem>,
}

impl Drop for BlockItems {
    #[cycle(resolved_statement_drop)]
    fn drop(self) {
        let BlockItems { items: _ } = self;
    }
}

/// An expression that is given to a parameter of this type.
pub struct Argument {
    pub number_type: NumberType,
    pub value: Expr,
}

impl Drop for Argument {
    fn drop(self) {
        let Argument {
            number_type: _,
            value: _,
        } = self;
    }
}

/// A function with its body.
pub struct Function {
    /// The type of its result; `void` has none.
    pub result_type: Option<NumberType>,
    /// The types of its parameters.
    pub parameters: Vec<NumberType>,
    pub body: BlockItems,
    /// The label of its `}`.
    pub end: usize,
}

impl Drop for Function {
    fn drop(self) {
        let Function {
            result_type: _,
            parameters: _,
            body: _,
            end: _,
        } = self;
    }
}

/// A global variable.
#[derive(Clone, Copy, PartialEq, Eq, Debug)]
pub struct GlobalVariable {
    pub number_type: NumberType,
    /// The value with which the program starts.
    pub value: i64,
}

/// A program.
pub struct Program {
    pub globals: Vec<GlobalVariable>,
    /// The global arrays.
    pub arrays: Vec<Array>,
    /// All functions in text order.
    pub functions: Vec<Function>,
    /// The place of `main` among them.
    pub main: usize,
}

impl Drop for Program {
    fn drop(self) {
        let Program {
            globals: _,
            arrays: _,
            functions: _,
            main: _,
        } = self;
    }
}

impl Expr {
    /// A copy that stands for the same expression.
    #[cycle(copy_expression)]
    pub fn copy(&self, alloc: Global) -> Result<Expr, AllocError>
        ensures { IfOk result (λ e. expr_view e ≡ expr_view self.now) }
    {
        Ok(match self {
            Expr::Literal(number_type, n) => Expr::Literal(*number_type, *n),
            Expr::Read(variable) => Expr::Read(*variable),
            Expr::Input => Expr::Input,
            Expr::Negate(e) => Expr::Negate(Box::new(alloc, e.copy(alloc)?)?),
            Expr::Chain(first, rest) => {
                let first = Box::new(alloc, first.copy(alloc)?)?;
                Expr::Chain(first, copy_operations(alloc, rest)?)
            }
            Expr::Element(array, place, index) => {
                Expr::Element(*array, *place, Box::new(alloc, index.copy(alloc)?)?)
            }
        })
    }
}

impl Element {
    /// A copy that stands for the same element.
    pub fn copy(&self, alloc: Global) -> Result<Element, AllocError>
        ensures { IfOk result (λ x. element_view x ≡ element_view self.now) }
    {
        Ok(Element {
            array: self.array,
            place: self.place,
            index: self.index.copy(alloc)?,
        })
    }
}

#[cycle(copy_expression)]
fn copy_operations(alloc: Global, operations: &[Operation]) -> Result<Vec<Operation>, AllocError>
    ensures { IfOk result (λ v. map operation_view v.items ≡ map operation_view operations.now) }
{
    let mut copies = Vec::new(alloc);
    'operations: for operation in operations {
        let operand = operation.operand.copy(alloc)?;
        copies.push(Operation {
            operator: operation.operator,
            operand,
        })?;
    }
    Ok(copies)
}

impl Cond {
    /// A copy that stands for the same condition.
    #[cycle(copy_condition)]
    pub fn copy(&self, alloc: Global) -> Result<Cond, AllocError>
        ensures { IfOk result (λ c. cond_view c ≡ cond_view self.now) }
    {
        Ok(match self {
            Cond::Compare(op, a, b) => Cond::Compare(*op, a.copy(alloc)?, b.copy(alloc)?),
            Cond::Nonzero(e) => Cond::Nonzero(e.copy(alloc)?),
            Cond::Opposite(c) => Cond::Opposite(Box::new(alloc, c.copy(alloc)?)?),
            Cond::All(first, rest) => {
                let first = Box::new(alloc, first.copy(alloc)?)?;
                Cond::All(first, copy_conditions(alloc, rest)?)
            }
            Cond::Any(first, rest) => {
                let first = Box::new(alloc, first.copy(alloc)?)?;
                Cond::Any(first, copy_conditions(alloc, rest)?)
            }
        })
    }
}

#[cycle(copy_condition)]
fn copy_conditions(alloc: Global, conditions: &[Cond]) -> Result<Vec<Cond>, AllocError>
    ensures { IfOk result (λ v. map cond_view v.items ≡ map cond_view conditions.now) }
{
    let mut copies = Vec::new(alloc);
    'conditions: for condition in conditions {
        copies.push(condition.copy(alloc)?)?;
    }
    Ok(copies)
}

/// Copies of expressions, each with the type of its parameter, as a call gives them.
pub fn pair_arguments(
    alloc: Global,
    parameters: &[NumberType],
    expressions: &[Expr],
) -> Result<Vec<Argument>, AllocError>
    ensures { IfOk result (λ v. map argument_view v.items
        ≡ arguments_for parameters.now (map expr_view expressions.now)) }
{
    let mut given = Vec::new(alloc);
    for (number_type, expression) in parameters.iter().zip(expressions) {
        let value = expression.copy(alloc)?;
        given.push(Argument {
            number_type: *number_type,
            value,
        })?;
    }
    Ok(given)
}
