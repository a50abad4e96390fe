// Examples.
use crate::{DimsLine, RefusedLines};
use shapes::Dim;
use std::test::Fail;

#[test]
fn lines_are_written(rt: HostRuntime) -> Result<(), Fail> {
    let heap = rt.alloc();
    let dims = [Dim { size: 4, edge: 2 }, Dim { size: 10, edge: 5 }];
    let line = DimsLine(&dims).to_string(heap)?;
    assert!(rt; line.as_str() == "DIMS 2 4/2 10/5\n");
    let none = DimsLine(&[]).to_string(heap)?;
    assert!(rt; none.as_str() == "DIMS 0\n");
    let refused = RefusedLines {
        number: 4,
        place: 1,
    }
    .to_string(heap)?;
    assert!(rt; refused.as_str() == "DIMS 0\nREFUSED 4 1\n");
    Ok(())
}
