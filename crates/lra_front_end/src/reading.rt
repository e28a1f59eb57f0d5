//! From the bytes of a source to its tree and its constants.

ghost use Rattle.std.specs.Prelude.{◌<◌, ◌+◌, ◌^◌, length, IfOk};
ghost use Rattle.lra_base.specs.Refused.{IfRefused};
ghost use Rattle.lra_front_end.specs.Crates.lra_resolution_spec.Refuse.{NotParsed};
ghost use Rattle.lra_front_end.specs.Crates.lra_syntax.Views.{tree_view};
ghost use Rattle.lra_front_end.specs.Crates.lra_syntax.Grammar.{Spells};
ghost use Rattle.lra_front_end.specs.Stages.{HasConstants, HasTree};

use lra_base::{Cause, GREATEST_LENGTH, Refusal, SourceError, place_after};
use lra_lex::{constants_of, tokens};
use lra_parse::parse;
use lra_recursion::TranslationUnit;
use std::alloc::Global;

/// What is read of a text: its tree, and the constants among its tokens.
#[derive(Drop)]
pub struct Reading {
    pub tree: TranslationUnit,
    pub constants: Vec<i64>,
}

/// The tree of a source and its constants, or its refusal.
pub fn read_text(alloc: Global, bytes: &[u8]) -> Result<Reading, SourceError>
    requires { length bytes.now + 1 < 2 ^ 32 }
    ensures found { IfOk result (λ r. HasTree bytes.now (tree_view r.tree)) }
    ensures constants { IfOk result (λ r. HasConstants bytes.now r.constants.items) }
    ensures refused { IfRefused result (λ r. NotParsed Spells bytes.now r.cause r.place) }
{
    if bytes.len() > GREATEST_LENGTH {
        let place = place_after(&bytes[..GREATEST_LENGTH]);
        return Err(SourceError::Refused(Refusal {
            cause: Cause::TooLong,
            place,
        }));
    }
    let tokens = tokens(alloc, bytes)?;
    let tree = parse(alloc, &tokens)?;
    let constants = constants_of(alloc, &tokens)?;
    Ok(Reading { tree, constants })
}
