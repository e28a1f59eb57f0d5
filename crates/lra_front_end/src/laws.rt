//! Laws: each of these does nothing, and its contract is the theorem.

ghost use Rattle.lra_front_end.specs.Crates.{lra_resolution_spec.Refuse.OneAnswer, lra_syntax.Grammar.Spells};
ghost use Rattle.lra_front_end.specs.{Claims.EachAnswer, Stages.OneConstants};

/// Wherever its runs begin, a source is accepted with at most one tree, or refused for at most one cause at one place;
/// never both.
pub fn one_answer()
    ensures { OneAnswer Spells }
{
    lra_lex::one_reading();
    lra_parse::one_tree();
}

/// A source has at most one list of constants.
pub fn one_constants()
    ensures { OneConstants }
{
    lra_lex::one_reading();
}

/// Wherever its runs begin, every list of bytes is refused, one of more than 65,536 bytes for that, or accepted with
/// its tree and a tree of operations for each of its programs; never both.
pub fn each_answer()
    ensures { EachAnswer }
{
    one_answer();
}
