//! Programs with their calls written out.

use crate::sources::{program_of, tree_of};
use lra_base::{NumberType, SourceError};
use lra_inline::{InlineError, Limit, build};
use lra_operations::{Node, Op, Site};
use lra_program::{Cell, Expr};
use std::alloc::{AllocError, Global};

const SMALL: &str = "int main(void){long x; x=2; if(x) assert(x);}";

/// What comes after the point.
fn behind_its_point(node: &Node, number: usize) -> Option<&Node> {
    match node {
        Node::Seq(before, rest) => match before.as_slice() {
            [Node::Point(point)] if *point == number => Some(rest),
            _ => None,
        },
        _ => None,
    }
}

/// The items, in front of the point of their end.
fn items_before(tree: &Node, end: usize) -> Option<&[Node]> {
    let Node::Seq(body, last) = tree else {
        return None;
    };
    let ends = matches!(&**last, Node::Point(point) if *point == end);
    match body.as_slice() {
        [Node::Seq(items, nothing)] if ends && matches!(&**nothing, Node::Empty) => Some(items),
        _ => None,
    }
}

/// Whether it is the tree of the small program.
fn is_small(tree: &Node) -> Option<bool> {
    let [declared, assigned, choice] = items_before(tree, 4)? else {
        return None;
    };
    let fresh = matches!(
        behind_its_point(declared, 0)?,
        Node::Act(0, Op::Append(NumberType::Long))
    );
    let given = match behind_its_point(assigned, 1)? {
        Node::Act(1, Op::StoreValue(0, receiver, Expr::Literal(NumberType::Int, 2))) => {
            matches!(
                &receiver.target,
                Some(target) if target.cell == Cell::Variable(0)
                    && target.number_type == NumberType::Long
            )
        }
        _ => false,
    };
    let tested = match behind_its_point(choice, 2)? {
        Node::Choose(2, 0, _, on_true, on_false) => {
            matches!(&**on_false, Node::Empty)
                && matches!(behind_its_point(on_true, 3)?, Node::Check(3, 0, _))
        }
        _ => false,
    };
    Some(fresh && given && tested)
}

/// The label of each point of the small program, how many variables live there, and whether it is an assertion.
const POINTS: [(usize, usize, bool); 5] = [
    (1, 0, false),
    (2, 1, false),
    (3, 1, false),
    (4, 1, true),
    (5, 1, false),
];

fn is_site(site: &Site, (label, live, asserts): (usize, usize, bool)) -> bool {
    let same = (site.label, site.live, site.asserts) == (label, live, asserts);
    same && site.path.as_slice().is_empty()
}

fn are_sites(sites: &[Site], points: &[(usize, usize, bool)]) -> bool {
    for (site, point) in sites.iter().zip(points) {
        if !is_site(site, *point) {
            return false;
        }
    }
    sites.len() == points.len()
}

fn writes_small_program(alloc: Global) -> Result<bool, SourceError> {
    let tree = tree_of(alloc, SMALL)?;
    let resolution = program_of(alloc, &tree)?;
    match build(alloc, &resolution.program) {
        Ok(graph) => Ok(is_small(&graph.tree) == Some(true) && are_sites(&graph.sites, &POINTS)),
        Err(_) => Ok(false),
    }
}

#[test]
fn a_small_program_is_written_out(rt: HostRuntime) {
    assert!(rt; writes_small_program(rt.alloc()) == Ok(true));
}

/// A source of so many functions, of which each calls the one before it and `main` the last; at least one.
fn chain(alloc: Global, functions: usize) -> Result<String, AllocError> {
    let mut text = String::new(alloc);
    text.push_str("void f0(void){}")?;
    let mut last = 0;
    for next in 1..functions {
        write!(text, "void f{next}(void){{f{last}();}}")?;
        last = next;
    }
    write!(text, "int main(void){{f{last}();}}")?;
    Ok(text)
}

/// How many points the program of such a chain has, or why it has no graph.
fn count_points(
    alloc: Global,
    functions: usize,
) -> Result<Result<usize, InlineError>, SourceError> {
    let source = chain(alloc, functions)?;
    let tree = tree_of(alloc, &source)?;
    let resolution = program_of(alloc, &tree)?;
    match build(alloc, &resolution.program) {
        Ok(graph) => Ok(Ok(graph.sites.len())),
        Err(error) => Ok(Err(error)),
    }
}

/// A point for each call and for the end of each function. The labels 1 to 3 are the end of `f0`, the call in `f1`,
/// and its end.
#[test]
fn a_call_past_the_limit_is_told(rt: HostRuntime) {
    assert!(rt; count_points(rt.alloc(), 1) == Ok(Ok(3)));
    assert!(rt; count_points(rt.alloc(), 32) == Ok(Ok(65)));
    let past = Err(InlineError::Passed(Limit::Calls(2)));
    assert!(rt; count_points(rt.alloc(), 33) == Ok(past));
}
