//! Where a statement stands.

ghost use Rattle.std.specs.Prelude.{◌≡◌};
ghost use Rattle.lra_operations.specs.TreeViews.{exit_view};
ghost use Rattle.lra_inline_steps.specs.Building.{length_left};

use lra_operations::{Exit, Path};
use lra_program::{Cond, Element, Program, Receiver, Stmt};
use std::alloc::Global;

/// Where a statement stands.
#[derive(Clone, Copy)]
pub struct Frame {
    /// Where the variables of the call that runs begin.
    pub base: usize,
    /// How many variables live.
    pub live: usize,
    /// How many calls more the path may have.
    pub calls_left: usize,
    /// How many variables live at the nearest loop or `switch`, after which `break` comes out.
    pub breaks: Option<usize>,
    /// How many variables live at the nearest loop, with which `continue` goes on.
    pub continues: Option<usize>,
    /// What gets the value of the function that runs.
    pub receiver: Receiver,
    /// How many variables live at the call; none in `main`.
    pub back: Option<usize>,
}

impl Frame {
    /// How long the store is where this jump comes out.
    pub fn length_left(self, exit: Exit) -> Option<usize>
        ensures { result ≡ length_left (exit_view exit) self }
    {
        match exit {
            Exit::Broken => self.breaks,
            Exit::Continued => self.continues,
            Exit::Returned => self.back,
        }
    }
}

/// What stands around a part that is written out.
#[derive(Clone, Copy)]
pub struct Around<'a> {
    pub alloc: Global,
    pub program: &'a Program,
    /// The calls that lead there.
    pub path: &'a Path,
    pub frame: Frame,
}

/// The program that is written out.
#[derive(Clone, Copy)]
pub struct Source<'a> {
    pub alloc: Global,
    pub program: &'a Program,
}

/// What calls: its point, and what gets the value.
#[derive(Clone, Copy)]
pub struct Caller<'a> {
    pub point: usize,
    pub receiver: Receiver,
    /// The element that the value is for: its index is computed before the arguments.
    pub element: Option<&'a Element>,
}

/// What a loop repeats: its body, then its step, while its condition is true. The two are reached by their boxes, since
/// what a type reaches through references alone is bounded.
#[derive(Clone, Copy)]
pub struct Repeated<'a> {
    pub cond: &'a Cond,
    pub body: &'a Box<Stmt>,
    pub step: &'a Box<Stmt>,
}
