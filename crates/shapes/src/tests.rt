// Examples.
use crate::{Cause, Dim, Reading, Shape, ShapeRefusal, kept_dimensions};
use std::test::Fail;

fn cut(size: u32, edge: u32) -> Dim {
    Dim { size, edge }
}

fn refusal(dims: &[Dim]) -> Option<ShapeRefusal> {
    match Shape::new(dims) {
        Ok(_) => None,
        Err(e) => Some(e),
    }
}

#[test]
fn a_shape_tells_its_numbers(rt: HostRuntime) -> Result<(), Fail> {
    let s = Shape::new(&[cut(4, 2), cut(2, 2)])?;
    assert_eq!(rt; s.dimensions(), 2);
    assert_eq!(rt; s.chunk_cells(), 4);
    assert_eq!(rt; s.total_chunks(), 2);
    assert_eq!(rt; s.group_count(), 4);
    assert!(rt; s == s);
    assert!(rt; s != Shape::new(&[cut(2, 2), cut(4, 2)])?);
    assert!(rt; s != Shape::new(&[cut(4, 2)])?);
    assert!(rt; s != Shape::new(&[cut(4, 2), cut(2, 1)])?);
    Ok(())
}

#[test]
fn cells_are_found(rt: HostRuntime) -> Result<(), Fail> {
    let s = Shape::new(&[cut(4, 2), cut(6, 3)])?;
    let at = [3, 4, 0, 0, 0, 0];
    assert_eq!(rt; s.storage_number(s.chunk_of(at)), Some(3));
    assert_eq!(rt; s.offset(s.local_of(at)), Some(3));
    assert_eq!(rt; s.storage_number([2, 0, 0, 0, 0, 0]), None);
    assert_eq!(rt; s.offset([0, 0, 1, 0, 0, 0]), None);
    Ok(())
}

#[test]
fn radices_number_digits(rt: HostRuntime) -> Result<(), Fail> {
    let s = Shape::new(&[cut(4, 2), cut(6, 3)])?;
    let edges = s.edge_radices();
    assert_eq!(rt; edges.each(), [2, 3, 1, 1, 1, 1]);
    assert_eq!(rt; edges.product(), 6);
    assert_eq!(rt; edges.number([1, 2, 0, 0, 0, 0]), Some(5));
    assert_eq!(rt; edges.number([2, 0, 0, 0, 0, 0]), None);
    assert_eq!(rt; edges.digits(5), [1, 2, 0, 0, 0, 0]);
    let second = edges.kept(kept_dimensions(2));
    assert_eq!(rt; second.each(), [1, 3, 1, 1, 1, 1]);
    assert_eq!(rt; s.count_radices().each(), [2, 2, 1, 1, 1, 1]);
    Ok(())
}

#[test]
fn a_dimension_is_written(rt: HostRuntime) -> Result<(), Fail> {
    let text = format!(in rt.alloc(); "{}", cut(16_384, 128))?;
    assert!(rt; text.as_str() == "16384/128");
    Ok(())
}

#[test]
fn groups_have_masks(rt: HostRuntime) -> Result<(), Fail> {
    let s = Shape::new(&[cut(4, 2), cut(6, 3), cut(1, 1)])?;
    assert!(rt; s.group(5) == Some([true, false, true, false, false, false]));
    assert_eq!(rt; s.group(8), None);
    assert_eq!(rt; s.mask([true, false, true, false, false, false]), Some(5));
    assert_eq!(rt; s.mask([false, false, false, true, false, false]), None);
    Ok(())
}

#[test]
fn the_first_cause_is_told(rt: HostRuntime) {
    assert_eq!(rt; refusal(&[]), Some(ShapeRefusal::Dimensions));
    assert_eq!(rt; refusal(&[cut(1, 1); 7]), Some(ShapeRefusal::Dimensions));
    assert_eq!(rt;
        refusal(&[cut(1, 1), cut(16385, 0)]),
        Some(ShapeRefusal::Size(1))
    );
    assert_eq!(rt;
        refusal(&[cut(3, 4), cut(0, 1)]),
        Some(ShapeRefusal::Edge(0))
    );
    assert_eq!(rt; refusal(&[cut(10, 3)]), Some(ShapeRefusal::Division(0)));
    assert_eq!(rt;
        refusal(&[cut(16384, 128), cut(16384, 256)]),
        Some(ShapeRefusal::Volume)
    );
    assert_eq!(rt;
        refusal(&[cut(16384, 1), cut(16384, 1), cut(65, 1)]),
        Some(ShapeRefusal::Extent)
    );
    assert_eq!(rt; ShapeRefusal::Edge(4).number(), 3);
    assert_eq!(rt; ShapeRefusal::Edge(4).place(), 4);
}

#[test]
fn readings_have_a_limit(rt: HostRuntime) -> Result<(), Fail> {
    assert!(rt; Reading::new(16_777_216).is_none());
    let r = Reading::new(Reading::LIMIT).ok_or(0)?;
    assert_eq!(rt; r.value(), 16_777_215);
    Ok(())
}
