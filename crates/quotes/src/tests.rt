// Examples.
use crate::answer_line;
use std::test::Fail;

#[test]
fn lines_are_answered(rt: HostRuntime) -> Result<(), Fail> {
    let heap = rt.alloc();
    let good = answer_line(heap, 1, b"4/2 2/2\r")?;
    assert!(rt; good.as_str() == "DIMS 2 4/2 2/2\nCELLS 9 T 144 FITS R 72 FITS M 72 FITS\n");
    let refused = answer_line(heap, 2, b"4/2 10/3")?;
    assert!(rt; refused.as_str() == "DIMS 0\nREFUSED 4 1\n");
    let bad = answer_line(heap, 3, b"4/2,2/2")?;
    assert!(rt; bad.as_str() == "LINE 3 IS NO SHAPE\n");
    Ok(())
}
