//! Trees of small sources, their programs and their refusals.

use lra_base::{Cause, NumberType, Place, Refusal, SourceError};
use lra_program::{BlockItem as ProgramItem, Program, Slot, Stmt as ProgramStmt, Variable};
use lra_resolve::resolve;
use lra_syntax::{
    Arguments, Assign, Block, BlockItem, Call, Declaration, Declarator, ExternalDeclaration,
    Function, Global, Globals, Identifier, Init, Parameter, Parameters, Rvalue, ScalarOrArray,
    SignedLiteral, Step, Stmt, TranslationUnit, Word,
};
use std::alloc::{AllocError, Global as Allocator};
use std::process::Abort;

/// All that a function's block has.
#[derive(Clone, Copy)]
enum Body {
    /// `;`
    Nothing,
    /// `break;`
    Break,
    /// `continue;`
    Continue,
    /// `for (;;) break;`
    Loop,
    /// `int x, x;`
    Declare,
    /// `x++;`
    Count,
    /// `f();`
    Call,
    /// `return f();`
    Return,
}

/// A line of a source.
#[derive(Clone, Copy)]
enum Part {
    /// A prototype.
    Prototype,
    /// `int x;`
    Global,
    /// `int x = ..;`
    Given(i64),
    /// A function with a result of `int` or none, its name, how many parameters `long a` it has, and its body.
    Function(bool, &'static str, usize, Body),
}

/// Where a function or a global variable is named.
const NAME: u32 = 5;

/// Where a function has its parameters, and a global variable its first value.
const BEHIND: u32 = 10;

/// Where a function's statement begins.
const STATEMENT: u32 = 20;

/// Where the second name of a statement stands.
const SECOND: u32 = 27;

fn identifier(
    alloc: Allocator,
    name: &str,
    line: u32,
    column: u32,
) -> Result<Identifier, AllocError> {
    Ok(Identifier {
        word: Word::from_str(alloc, name)?,
        place: Place { line, column },
    })
}

/// `f()`
fn call(alloc: Allocator, line: u32, column: u32) -> Result<Call, AllocError> {
    Ok(Call {
        name: identifier(alloc, "f", line, column)?,
        arguments: Arguments {
            items: Vec::new(alloc),
        },
    })
}

/// `x`
fn declarator(alloc: Allocator, line: u32, column: u32) -> Result<Declarator, AllocError> {
    Ok(Declarator {
        name: identifier(alloc, "x", line, column)?,
        shape: ScalarOrArray::Scalar(None),
    })
}

/// `int x, x;`
fn declaration(alloc: Allocator, line: u32) -> Result<Declaration, AllocError> {
    let mut rest = Vec::new(alloc);
    rest.push(declarator(alloc, line, SECOND)?)?;
    Ok(Declaration {
        number_type: NumberType::Int,
        first: declarator(alloc, line, STATEMENT)?,
        rest,
    })
}

/// `for (;;) break;`
fn endless(alloc: Allocator, line: u32) -> Result<Stmt, AllocError> {
    let column = STATEMENT;
    let leave = Stmt::Break(Place {
        line,
        column: SECOND,
    });
    let body = Box::new(alloc, leave)?;
    Ok(Stmt::For(Place { line, column }, Init::Nothing, None, None, body))
}

/// `x++;`
fn count(alloc: Allocator, line: u32) -> Result<BlockItem, AllocError> {
    let x = identifier(alloc, "x", line, STATEMENT)?;
    Ok(BlockItem::Statement(Stmt::Assign(Assign::After(x, Step::Increment))))
}

/// `return f();`
fn given_back(alloc: Allocator, line: u32) -> Result<BlockItem, AllocError> {
    let rvalue = Rvalue::Result(call(alloc, line, SECOND)?);
    let column = STATEMENT;
    Ok(BlockItem::Statement(Stmt::Return(Place { line, column }, Some(rvalue))))
}

fn item(alloc: Allocator, line: u32, body: Body) -> Result<BlockItem, AllocError> {
    let place = Place {
        line,
        column: STATEMENT,
    };
    match body {
        Body::Nothing => Ok(BlockItem::Statement(Stmt::Nothing(place))),
        Body::Break => Ok(BlockItem::Statement(Stmt::Break(place))),
        Body::Continue => Ok(BlockItem::Statement(Stmt::Continue(place))),
        Body::Loop => Ok(BlockItem::Statement(endless(alloc, line)?)),
        Body::Declare => Ok(BlockItem::Declaration(declaration(alloc, line)?)),
        Body::Count => count(alloc, line),
        Body::Call => Ok(BlockItem::Statement(Stmt::Call(call(alloc, line, STATEMENT)?))),
        Body::Return => given_back(alloc, line),
    }
}

fn parameters(alloc: Allocator, line: u32, count: usize) -> Result<Parameters, AllocError> {
    let mut items = Vec::new(alloc);
    for _ in 0..count {
        items.push(Parameter {
            number_type: NumberType::Long,
            name: identifier(alloc, "a", line, BEHIND)?,
        })?;
    }
    Ok(Parameters { items })
}

fn block(alloc: Allocator, line: u32, body: Body) -> Result<Block, AllocError> {
    let mut items = Vec::new(alloc);
    items.push(item(alloc, line, body)?)?;
    Ok(Block {
        items,
        end: Place { line, column: 40 },
    })
}

fn result_type(has_result: bool) -> Option<NumberType> {
    if has_result {
        Some(NumberType::Int)
    } else {
        None
    }
}

/// `int x;`, or with a first value.
fn global(
    alloc: Allocator,
    line: u32,
    value: Option<SignedLiteral>,
) -> Result<ExternalDeclaration, AllocError> {
    let first = Global {
        name: identifier(alloc, "x", line, NAME)?,
        shape: ScalarOrArray::Scalar(value),
    };
    Ok(ExternalDeclaration::Globals(Globals {
        number_type: NumberType::Int,
        first,
        rest: Vec::new(alloc),
    }))
}

fn file_item(alloc: Allocator, line: u32, part: Part) -> Result<ExternalDeclaration, AllocError> {
    match part {
        Part::Prototype => Ok(ExternalDeclaration::Prototype),
        Part::Global => global(alloc, line, None),
        Part::Given(value) => {
            let column = BEHIND;
            let place = Place { line, column };
            global(alloc, line, Some(SignedLiteral { value, place }))
        }
        Part::Function(has_result, name, count, body) => Ok(ExternalDeclaration::Function(
            Function {
                result_type: result_type(has_result),
                name: identifier(alloc, name, line, NAME)?,
                parameters: parameters(alloc, line, count)?,
                body: block(alloc, line, body)?,
            },
        )),
    }
}

/// A source of two lines.
fn tree(alloc: Allocator, first: Part, second: Part) -> Result<TranslationUnit, AllocError> {
    let mut items = Vec::new(alloc);
    items.push(file_item(alloc, 1, first)?)?;
    items.push(file_item(alloc, 2, second)?)?;
    Ok(TranslationUnit {
        items,
        end: Place { line: 3, column: 1 },
    })
}

/// The first global variable, an `int`.
const COUNTED: Variable = Variable {
    slot: Slot::Global(0),
    number_type: NumberType::Int,
};

/// Whether the item counts up the first global variable under the label 1.
fn counts_up(item: &ProgramItem) -> bool {
    match item {
        ProgramItem::Statement(ProgramStmt::Assign(label, variable, _)) => *label == 1
            && *variable == COUNTED,
        _ => false,
    }
}

/// Whether it is the program of `int x;` and `int main() { x++; }`.
fn is_counter(program: &Program) -> bool {
    let Some(main) = program.functions.first() else {
        return false;
    };
    let Some(item) = main.body.items.first() else {
        return false;
    };
    let alone = program.functions.len() == 1 && main.body.items.len() == 1;
    alone && program.main == 0 && main.end == 2 && counts_up(item)
}

fn has_program(alloc: Allocator) -> Result<bool, SourceError> {
    let main = Part::Function(true, "main", 0, Body::Count);
    let tree = tree(alloc, Part::Global, main)?;
    Ok(is_counter(&resolve(alloc, &tree)?.program))
}

#[test]
fn a_source_has_its_program(rt: HostRuntime) {
    assert!(rt; has_program(rt.alloc()) == Ok(true));
}

/// Whether the first global variable is an `int` that begins with this value.
fn begins_with(program: &Program, value: i64) -> bool {
    match program.globals.first() {
        Some(first) => first.number_type == NumberType::Int && first.value == value,
        None => false,
    }
}

/// Whether `int x` can begin with this value, and does.
fn is_first_value(alloc: Allocator, value: i64) -> Result<bool, SourceError> {
    let tree = tree(alloc, Part::Given(value), MAIN)?;
    Ok(begins_with(&resolve(alloc, &tree)?.program, value))
}

#[test]
fn the_ends_of_int_are_first_values(rt: HostRuntime) {
    assert!(rt; is_first_value(rt.alloc(), -2147483648) == Ok(true));
    assert!(rt; is_first_value(rt.alloc(), 2147483647) == Ok(true));
}

/// `int main() { ; }`
const MAIN: Part = Part::Function(true, "main", 0, Body::Nothing);

/// Two lines of a source, and its first fault.
type Fault = (Part, Part, Cause, u32, u32);

static FAULTS: [Fault; 14] = [
    (
        Part::Prototype,
        Part::Function(true, "main", 0, Body::Count),
        Cause::UnknownName,
        2,
        STATEMENT,
    ),
    (
        Part::Prototype,
        Part::Function(true, "main", 0, Body::Call),
        Cause::UnknownName,
        2,
        STATEMENT,
    ),
    (Part::Global, Part::Global, Cause::DuplicateName, 2, NAME),
    (MAIN, MAIN, Cause::DuplicateName, 2, NAME),
    (
        Part::Function(false, "f", 2, Body::Nothing),
        MAIN,
        Cause::DuplicateName,
        1,
        BEHIND,
    ),
    (
        Part::Prototype,
        Part::Function(true, "main", 0, Body::Declare),
        Cause::DuplicateName,
        2,
        SECOND,
    ),
    (
        Part::Function(false, "f", 1, Body::Nothing),
        Part::Function(true, "main", 0, Body::Call),
        Cause::BadCall,
        2,
        STATEMENT,
    ),
    (
        Part::Function(false, "f", 0, Body::Nothing),
        Part::Function(true, "main", 0, Body::Return),
        Cause::BadCall,
        2,
        SECOND,
    ),
    (
        Part::Function(true, "f", 0, Body::Nothing),
        Part::Function(false, "main", 0, Body::Return),
        Cause::BadCall,
        2,
        STATEMENT,
    ),
    (
        Part::Prototype,
        Part::Function(true, "main", 0, Body::Break),
        Cause::Misplaced,
        2,
        STATEMENT,
    ),
    (
        Part::Prototype,
        Part::Function(true, "main", 0, Body::Continue),
        Cause::Misplaced,
        2,
        STATEMENT,
    ),
    (
        Part::Function(false, "f", 0, Body::Loop),
        Part::Function(true, "main", 0, Body::Break),
        Cause::Misplaced,
        2,
        STATEMENT,
    ),
    (
        Part::Function(false, "f", 0, Body::Continue),
        Part::Function(true, "main", 0, Body::Count),
        Cause::Misplaced,
        1,
        STATEMENT,
    ),
    (
        Part::Prototype,
        Part::Function(true, "main", 1, Body::Nothing),
        Cause::NoMain,
        3,
        1,
    ),
];

/// First values that are no `int`.
static FIRST_VALUES: [Fault; 3] = [
    (Part::Given(2147483648), MAIN, Cause::BadLiteral, 1, BEHIND),
    (Part::Given(-2147483649), MAIN, Cause::BadLiteral, 1, BEHIND),
    (
        Part::Global,
        Part::Given(2147483648),
        Cause::DuplicateName,
        2,
        NAME,
    ),
];

/// Whether a source of these lines is refused so.
fn is_refused(
    alloc: Allocator,
    first: Part,
    second: Part,
    refusal: Refusal,
) -> Result<bool, AllocError> {
    let tree = tree(alloc, first, second)?;
    match resolve(alloc, &tree) {
        Ok(_) => Ok(false),
        Err(error) => Ok(error == SourceError::Refused(refusal)),
    }
}

/// Checks the first faults of sources.
fn are_refused(rt: &impl Abort, alloc: Allocator, faults: &[Fault]) {
    for (first, second, cause, line, column) in faults {
        let place = Place {
            line: *line,
            column: *column,
        };
        let cause = *cause;
        let refused = is_refused(alloc, *first, *second, Refusal { cause, place });
        assert!(rt; refused == Ok(true), "{cause:?}");
    }
}

#[test]
fn a_source_is_refused_at_its_first_fault(rt: HostRuntime) {
    are_refused(&rt, rt.alloc(), &FAULTS);
    are_refused(&rt, rt.alloc(), &FIRST_VALUES);
}
