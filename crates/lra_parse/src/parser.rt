//! The tree of a list of tokens, or its first fault.

ghost use Rattle.std.specs.Prelude.{◌≡◌, Err, IfOk};
ghost use Rattle.lra_base.specs.Refused.{IfRefused};
ghost use Rattle.lra_syntax.specs.{Faults.IsTree, Faults.IsTextFault, Grammar.Spells, Views.tree_view};
ghost use Rattle.lra_parser_spec.specs.Files.{EndsOnce, file_at};

use crate::functions::read_file;
use lra_base::{Refusal, SourceError};
use lra_parser_spec::{Fault, Stopped};
use lra_syntax::{Token, TranslationUnit};
use std::alloc::Global;

/// The refusal for the fault at which reading stops.
fn refusal(tokens: &[Token], fault: Fault) -> Refusal
    requires ends { EndsOnce tokens.now }
    requires stops { file_at 63 tokens.now ≡ Err fault }
    ensures { IsTextFault Spells tokens.now result.cause result.place }
{
    let index = tokens.len() - fault.left;
    Refusal {
        cause: fault.cause,
        place: tokens[index].place,
    }
}

/// The tree of the tokens, whose last and no other is the end; or the first fault: the first token with which no source
/// begins, or that opens a level past the 64th. Both are exact: no text has two trees, and a fault is the only one
/// (`one_tree`). The time is linear in the number of tokens, and calls nest at most in proportion to the levels.
pub fn parse(alloc: Global, tokens: &[Token]) -> Result<TranslationUnit, SourceError>
    requires ends { EndsOnce tokens.now }
    ensures found { IfOk result (λ t. IsTree Spells tokens.now (tree_view t)) }
    ensures refused { IfRefused result (λ r. IsTextFault Spells tokens.now r.cause r.place) }
{
    match read_file(alloc, tokens) {
        Ok((tree, _behind)) => Ok(tree),
        Err(stopped) => match stopped {
            Stopped::Memory => Err(SourceError::Memory),
            Stopped::Fault(fault) => Err(SourceError::Refused(refusal(tokens, fault))),
        },
    }
}
