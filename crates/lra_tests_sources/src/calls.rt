//! The first recursive call of small sources, by hand.

use lra_base::{NumberType, Place, SourceError};
use lra_program::{BlockItems, Program};
use lra_recursion::first_recursive;
use lra_resolve::Labelling;
use lra_syntax::{
    Block, ExternalDeclaration, Function, Identifier, Parameters, TranslationUnit, Word,
};
use std::alloc::{AllocError, Global};
use std::process::Abort;

/// A name, and the names that the function of this name calls, at the columns 20, 30 and 40 in this order.
type Line = &'static [&'static str];

/// Sources of a function on each line, without a recursive call.
static STRAIGHT: [(&'static [Line], Option<Place>); 4] = [
    (&[], None),
    (&[&["main", "f"], &["f", "g"], &["g", "h"], &["h"]], None),
    (
        &[&["main", "f", "g"], &["f", "h"], &["g", "h"], &["h"]],
        None,
    ),
    (&[&["f", "k"], &["main", "f"]], None),
];

/// Sources of two functions or fewer in a round, each with the place of its first recursive call.
static ROUND: [(&'static [Line], Option<Place>); 4] = [
    (
        &[&["f", "f"], &["main"]],
        Some(Place {
            line: 1,
            column: 20,
        }),
    ),
    (
        &[&["main", "main"]],
        Some(Place {
            line: 1,
            column: 20,
        }),
    ),
    (
        &[&["f", "g"], &["g", "f"], &["main", "f"]],
        Some(Place {
            line: 1,
            column: 20,
        }),
    ),
    (
        &[&["main", "f"], &["f", "g"], &["g", "f"]],
        Some(Place {
            line: 2,
            column: 20,
        }),
    ),
];

/// Sources of which a recursive call comes after others, likewise.
static ROUNDS: [(&'static [Line], Option<Place>); 4] = [
    (
        &[&["main", "f"], &["g"], &["f", "g", "f"]],
        Some(Place {
            line: 3,
            column: 30,
        }),
    ),
    (
        &[&["f", "g", "g", "h"], &["g"], &["h", "f"]],
        Some(Place {
            line: 1,
            column: 40,
        }),
    ),
    (
        &[&["f", "g", "h"], &["g", "h"], &["h", "g"]],
        Some(Place {
            line: 2,
            column: 20,
        }),
    ),
    (
        &[&["f", "g"], &["g"], &["g", "f"]],
        Some(Place {
            line: 1,
            column: 20,
        }),
    ),
];

fn identifier(alloc: Global, name: &str, line: u32, column: u32) -> Result<Identifier, AllocError> {
    Ok(Identifier {
        word: Word::from_str(alloc, name)?,
        place: Place { line, column },
    })
}

/// A function of this name. What it calls is given by its labels.
fn function(alloc: Global, name: &str, line: u32) -> Result<Function, AllocError> {
    Ok(Function {
        result_type: Some(NumberType::Int),
        name: identifier(alloc, name, line, 5)?,
        parameters: Parameters {
            items: Vec::new(alloc),
        },
        body: Block {
            items: Vec::new(alloc),
            end: Place { line, column: 60 },
        },
    })
}

/// What is known of a source before its calls are looked at, line by line.
#[derive(Drop)]
struct Lines {
    items: Vec<ExternalDeclaration>,
    functions: Vec<lra_program::Function>,
    labels: Labelling,
}

/// Adds a label for each of these calls, and one for the end of the function that holds them, which it gives.
fn add_labels(
    alloc: Global,
    names: &[&str],
    line: u32,
    labels: &mut Labelling,
) -> Result<usize, SourceError> {
    let mut column = 20u32;
    for name in names {
        let called = identifier(alloc, name, line, column)?;
        labels.add(Place { line, column }, Some(called))?;
        column = column.wrapping_add(10);
    }
    labels.add(Place { line, column: 60 }, None)
}

/// Adds a function of the name that calls these.
fn add_line(
    alloc: Global,
    name: &str,
    called: &[&str],
    line: u32,
    lines: &mut Lines,
) -> Result<(), SourceError> {
    lines.items.push(ExternalDeclaration::Function(function(alloc, name, line)?))?;
    let end = add_labels(alloc, called, line, &mut lines.labels)?;
    lines.functions.push(lra_program::Function {
        result_type: Some(NumberType::Int),
        parameters: Vec::new(alloc),
        body: BlockItems {
            items: Vec::new(alloc),
        },
        end,
    })?;
    Ok(())
}

fn read_lines(alloc: Global, source: &[Line]) -> Result<Lines, SourceError> {
    let mut lines = Lines {
        items: Vec::new(alloc),
        functions: Vec::new(alloc),
        labels: Labelling::new(alloc),
    };
    let mut line = 1u32;
    for names in source {
        if let Some((name, called)) = names.split_first() {
            add_line(alloc, name, called, line, &mut lines)?;
        }
        line = line.wrapping_add(1);
    }
    Ok(lines)
}

/// Whether this is the first recursive call.
fn is_found(alloc: Global, source: &[Line], expected: Option<Place>) -> Result<bool, SourceError> {
    let lines = read_lines(alloc, source)?;
    let Lines {
        items,
        functions,
        labels,
    } = lines;
    let tree = TranslationUnit {
        items,
        end: Place { line: 9, column: 1 },
    };
    let program = Program {
        globals: Vec::new(alloc),
        arrays: Vec::new(alloc),
        functions,
        main: 0,
    };
    let labels = labels.into_table();
    Ok(first_recursive(alloc, &tree, &program, &labels)? == expected)
}

/// Checks the first recursive calls of sources.
fn are_found(rt: &impl Abort, alloc: Global, sources: &[(&'static [Line], Option<Place>)]) {
    for (lines, expected) in sources {
        assert!(rt; is_found(alloc, lines, *expected) == Ok(true));
    }
}

#[test]
fn the_first_recursive_call_is_found(rt: HostRuntime) {
    are_found(&rt, rt.alloc(), &STRAIGHT);
    are_found(&rt, rt.alloc(), &ROUND);
    are_found(&rt, rt.alloc(), &ROUNDS);
}
