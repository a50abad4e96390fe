// Rows over an array of 4 by 2 in two chunks, and corrections over them.
use crate::refusals::{CorrectionRefusal, RowRefusal, SourceRefusal};
use crate::rows::{Row, RowTable};
use crate::source::{Source, fetch_twice};
use crate::table::{Correction, Corrections};
use measures::{Measure, Total};
use shapes::{Cause, Dim, Shape, ShapeRefusal};
use std::test::Fail;

fn small_shape() -> Result<Shape, ShapeRefusal> {
    Shape::new(&[Dim { size: 4, edge: 2 }, Dim { size: 2, edge: 2 }])
}

fn row(x: u32, y: u32, reading: u32) -> Row {
    Row {
        at: [x, y, 0, 0, 0, 0],
        reading,
    }
}

fn total(count: u64, sum: u64) -> Total {
    Total { count, sum }
}

#[test]
fn rows_lie_on_their_cells(rt: HostRuntime) -> Result<(), Fail> {
    let rows = [row(0, 0, 5), row(3, 0, 7), row(3, 1, 1)];
    let mut table = RowTable::new(small_shape()?, &rows);
    assert_eq!(rt; table.check(), Ok(()));
    let mut cells = [total(9, 9); 5];
    table.fetch(0, &mut cells)?;
    assert_eq!(rt; cells[0], total(1, 5));
    assert_eq!(rt; cells[3], total(0, 0));
    table.fetch(1, &mut cells)?;
    assert_eq!(rt; cells[0], total(0, 0));
    assert_eq!(rt; cells[1], total(1, 7));
    assert_eq!(rt; cells[3], total(1, 1));
    assert_eq!(rt; cells[4], total(9, 9));
    Ok(())
}

#[test]
fn rows_of_one_cell_are_joined(rt: HostRuntime) -> Result<(), Fail> {
    let rows = [
        row(1, 1, 4),
        row(4, 0, 8),
        row(1, 1, 6),
        row(1, 1, 16_777_216),
    ];
    let mut table = RowTable::new(small_shape()?, &rows);
    let refusal = RowRefusal { row: 1 };
    assert_eq!(rt; table.check(), Err(refusal));
    assert_eq!(rt; refusal.number(), 11);
    assert_eq!(rt; refusal.place(), 1);
    let mut cells = [total(9, 9); 4];
    table.fetch(0, &mut cells)?;
    assert_eq!(rt; cells[0], total(0, 0));
    assert_eq!(rt; cells[3], total(2, 10));
    Ok(())
}

#[test]
fn a_fetch_is_refused(rt: HostRuntime) -> Result<(), Fail> {
    let rows = [row(0, 0, 5)];
    let mut table = RowTable::new(small_shape()?, &rows);
    let mut cells = [total(9, 9); 3];
    assert_eq!(rt; table.fetch(2, &mut cells), Err(SourceRefusal::Beyond));
    assert_eq!(rt; table.fetch(0, &mut cells), Err(SourceRefusal::Short(4)));
    assert_eq!(rt; cells[0], total(9, 9));
    let mut more = [total(9, 9); 3];
    let (first, second) = fetch_twice(&mut table, 1, &mut cells, &mut more);
    assert_eq!(rt; first, second);
    Ok(())
}

#[test]
fn layers_of_corrections_nest(rt: HostRuntime) -> Result<(), Fail> {
    let rows = [row(0, 0, 5)];
    let mut first = Corrections::new(RowTable::new(small_shape()?, &rows));
    first.add(Correction {
        number: 0,
        offset: 0,
        reading: 2,
    })?;
    let mut second = Corrections::new(first);
    second.add(Correction {
        number: 0,
        offset: 0,
        reading: 1,
    })?;
    second.add(Correction {
        number: 1,
        offset: 3,
        reading: 6,
    })?;
    let mut cells = [total(9, 9); 4];
    second.fetch(0, &mut cells)?;
    assert_eq!(rt; cells[0], total(3, 8));
    assert_eq!(rt; cells[3], total(0, 0));
    second.fetch(1, &mut cells)?;
    assert_eq!(rt; cells[3], total(1, 6));
    Ok(())
}

#[test]
fn a_correction_is_refused(rt: HostRuntime) -> Result<(), Fail> {
    let mut layer = Corrections::new(RowTable::new(small_shape()?, &[]));
    let out = Err(CorrectionRefusal::OutOfRange);
    assert_eq!(rt;
        layer.add(Correction {
            number: 2,
            offset: 0,
            reading: 0,
        }),
        out
    );
    assert_eq!(rt;
        layer.add(Correction {
            number: 0,
            offset: 4,
            reading: 0,
        }),
        out
    );
    assert_eq!(rt;
        layer.add(Correction {
            number: 0,
            offset: 0,
            reading: 16_777_216,
        }),
        out
    );
    for reading in 0..32 {
        layer.add(Correction {
            number: 1,
            offset: 2,
            reading,
        })?;
    }
    assert_eq!(rt;
        layer.add(Correction {
            number: 1,
            offset: 2,
            reading: 0,
        }),
        Err(CorrectionRefusal::Full)
    );
    let mut cells = [total(9, 9); 4];
    layer.fetch(1, &mut cells)?;
    assert_eq!(rt; cells[2], total(32, 496));
    Ok(())
}
