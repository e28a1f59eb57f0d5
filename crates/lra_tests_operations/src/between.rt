//! Paths of programs from point to point, as they are counted and written.

ghost use Rattle.lra_tests_operations.specs.Crates.lra_path_disjuncts.Tables.{IsTable};

use crate::sources::{program_of, tree_of};
use lra_base::SourceError;
use lra_inline::build;
use lra_paths::{Goal, PathsFailure, Source, find_paths};
use std::alloc::{AllocError, Global};

/// What paths are looked for: how many lead from the source of this number to the goal; the least source with too many;
/// nothing if the program has no graph, or memory fails.
#[derive(Clone, Copy, PartialEq, Eq)]
enum Found {
    Paths(usize),
    TooMany(usize),
    Nothing,
}

/// How many paths lead there, counted and written alike.
fn count_written(alloc: Global, source: &Source, goal: Goal) -> Result<Found, AllocError>
    requires { IsTable source.now.entries.items }
{
    let count = source.count_to(goal);
    if count > 1024 {
        return Ok(Found::Nothing);
    }
    let written = source.paths_to(alloc, goal)?;
    Ok(if written.len() == count {
        Found::Paths(count)
    } else {
        Found::Nothing
    })
}

/// The start is the source 0, and the points have the numbers from 1 on; as goals they are numbered from 0.
fn find(alloc: Global, text: &str, from: usize, goal: Goal) -> Result<Found, SourceError> {
    let tree = tree_of(alloc, text)?;
    let resolution = program_of(alloc, &tree)?;
    let Ok(graph) = build(alloc, &resolution.program) else {
        return Ok(Found::Nothing);
    };
    let globals = resolution.program.globals.as_slice();
    match find_paths(alloc, globals, &graph) {
        Ok(paths) => {
            let source = paths.from(alloc, from)?;
            Ok(count_written(alloc, &source, goal)?)
        }
        Err(PathsFailure::TooMany(source)) => Ok(Found::TooMany(source)),
        Err(PathsFailure::Memory) => Ok(Found::Nothing),
    }
}

const STRAIGHT: &str = "int main(void){ long x; x = 3; assert(x >= 3); }";

/// A counter that begins again at 100: points 1 to 8 are the declarator, the loop, two assignments with the `if`
/// between them, the block's end, the assertion, the end of `main`.
const COUNTER: &str =
    "int main(void){ long x=0; while(input()){ x=x+1; if(x==100) x=0; } assert(x<=99); }";

/// A global, a parameter, an `int` and a division, which has two cases.
const CALLED: &str =
    "long g=5; int half(long a){ int b=a/2; return b; } int main(void){ int h; h=half(g); }";

/// Ten sides of two each, and eleven.
const TEN: &str =
    "int main(void){ long a; assume(a!=0&&a!=1&&a!=2&&a!=3&&a!=4&&a!=5&&a!=6&&a!=7&&a!=8&&a!=9); }";

const ELEVEN: &str =
    "int main(void){ long a; assume(a!=0&&a!=1&&a!=2&&a!=3&&a!=4&&a!=5&&a!=6&&a!=7&&a!=8&&a!=9&&a!=10); }";

/// As many paths as the definitions give, written out by hand: an equation that is false has two disjuncts, and so has
/// a division.
const COUNTS: [(&str, usize, Goal, Found); 17] = [
    (STRAIGHT, 0, Goal::ComesTo(0), Found::Paths(1)),
    (STRAIGHT, 1, Goal::ComesTo(1), Found::Paths(1)),
    (STRAIGHT, 1, Goal::ComesTo(2), Found::Paths(0)),
    (STRAIGHT, 3, Goal::ComesTo(3), Found::Paths(1)),
    (STRAIGHT, 3, Goal::Violates(2), Found::Paths(1)),
    (STRAIGHT, 2, Goal::Violates(2), Found::Paths(0)),
    (COUNTER, 2, Goal::ComesTo(2), Found::Paths(1)),
    (COUNTER, 2, Goal::ComesTo(6), Found::Paths(1)),
    (COUNTER, 4, Goal::ComesTo(4), Found::Paths(1)),
    (COUNTER, 4, Goal::ComesTo(5), Found::Paths(2)),
    (COUNTER, 6, Goal::ComesTo(1), Found::Paths(1)),
    (COUNTER, 7, Goal::Violates(6), Found::Paths(1)),
    (CALLED, 0, Goal::ComesTo(0), Found::Paths(1)),
    (CALLED, 3, Goal::ComesTo(3), Found::Paths(2)),
    (TEN, 2, Goal::ComesTo(2), Found::Paths(1024)),
    (ELEVEN, 2, Goal::ComesTo(2), Found::TooMany(2)),
    (ELEVEN, 0, Goal::ComesTo(0), Found::TooMany(2)),
];

#[test]
fn paths_are_counted_and_written(rt: HostRuntime) {
    for (text, from, goal, found) in COUNTS {
        assert!(rt; find(rt.alloc(), text, from, goal) == Ok(found));
    }
}

/// A condition of so many operators in turn, `||` the outermost, whose parentheses open on the left or on the right.
fn alternations(alloc: Global, operators: usize, on_the_left: bool) -> Result<String, AllocError> {
    let mut text = String::new(alloc);
    text.push_str("int main(void){ long x; assume(")?;
    for k in 0..operators {
        if on_the_left {
            text.push('(')?;
        } else if k % 2 == 0 {
            text.push_str("x<1||(")?;
        } else {
            text.push_str("x<1&&(")?;
        }
    }
    text.push_str("x<0")?;
    for k in 0..operators {
        if !on_the_left {
            text.push(')')?;
        } else if k % 2 == 0 {
            text.push_str("&&x<1)")?;
        } else {
            text.push_str("||x<1)")?;
        }
    }
    text.push_str("); }")?;
    Ok(text)
}

fn find_alternations(alloc: Global, on_the_left: bool) -> Result<Found, SourceError> {
    let text = alternations(alloc, 60, on_the_left)?;
    find(alloc, text.as_str(), 2, Goal::ComesTo(2))
}

/// On the right each of thirty `||` adds one side; on the left sides are the numbers of Fibonacci.
#[test]
fn many_alternations_are_counted_at_once(rt: HostRuntime) {
    assert!(rt; find_alternations(rt.alloc(), false) == Ok(Found::Paths(31)));
    assert!(rt; find_alternations(rt.alloc(), true) == Ok(Found::TooMany(2)));
}
