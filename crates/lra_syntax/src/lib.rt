//! What a source is: tokens, trees, the grammar, and first faults of its texts.
//!
//! Most of the crate is definitions: `specs/` is to be read from top to bottom, in the order of `specs/Lib.antt`.
//! The types of tokens and trees are those of the front end's calls.
#![tactic(auto)]

mod tokens;
mod trees;

pub use lra_base::Place;
pub use tokens::{Kind, Mark, Token, Word};
pub use trees::{
    Arguments, ArrayLength, Assign, Block, BlockItem, Call, CaseItem, Cases, Cond, Conjunction,
    Declaration, Declarator, Expr, ExternalDeclaration, Factor, FactorOperator, Function, Global,
    Globals, Identifier, Init, Negation, Parameter, Parameters, PlacedLabel, Rvalue, ScalarOrArray,
    SignedLiteral, Step, Stmt, SumOperator, Summand, Term, Test, TranslationUnit, Unary,
};
