//! Paths of calls.

use lra_operations::Path;
use std::test::Fail;

#[test]
fn a_path_has_the_innermost_call_first(rt: HostRuntime) -> Result<(), Fail> {
    let outer = Path::empty(rt.alloc()).with_call(rt.alloc(), 3)?;
    let inner = outer.with_call(rt.alloc(), 7)?;
    let copy = inner.copy(rt.alloc())?;
    assert!(rt; copy.as_slice() == [7, 3].as_slice());
    Ok(())
}
