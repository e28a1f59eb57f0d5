//! Words of a source.

use lra_syntax::Word;
use std::test::Fail;

#[test]
fn words_keep_their_text(rt: HostRuntime) -> Result<(), Fail> {
    let word = Word::from_str(rt.alloc(), "_x9")?;
    let copy = word.copy(rt.alloc())?;
    assert!(rt; word.as_slice() == [95, 120, 57].as_slice());
    assert!(rt; copy.as_str() == "_x9");
    Ok(())
}
