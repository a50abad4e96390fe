// Files of 4 by 2 cells in two chunks, of 10 cells in one chunk, and refusals.
use crate::refusals::WriteRefusal;
use crate::writer::write;
use chunk_files::ChunkFile;
use measures::Total;
use shapes::{Cause, Dim, Shape, ShapeRefusal};
use sources::{Row, Source};
use std::alloc::Global;
use std::array;
use std::test::Fail;

fn cut(size: u32, edge: u32) -> Dim {
    Dim { size, edge }
}

fn row(x: u32, y: u32, reading: u32) -> Row {
    Row {
        at: [x, y, 0, 0, 0, 0],
        reading,
    }
}

fn answer(
    heap: Global,
    dims: &[Dim],
    rows: &[Row],
    out: &mut [u8],
) -> Result<Result<usize, WriteRefusal>, ShapeRefusal> {
    let shape = Shape::new(dims)?;
    Ok(write(heap, &shape, rows, out))
}

const EXAMPLE: [u8; 58] = [
    1, 2, 0, 0, 4, 0, 0, 0, 2, 0, 0, 0, 2, 0, 0, 0, 2, 0, 0, 0, 36, 0, 0, 0, 1, 0, 0, 0, 42, 0, 0,
    0, 2, 0, 1, 0, 0, 0, 5, 0, 0, 0, 255, 255, 255, 255, 7, 0, 0, 0, 255, 255, 255, 255, 1, 0, 0,
    0,
];

#[test]
fn the_example_is_written(rt: HostRuntime) -> Result<(), Fail> {
    let dims = [cut(4, 2), cut(2, 2)];
    let rows = [row(3, 1, 1), row(0, 0, 5), row(3, 0, 7)];
    let mut out = [9; 60];
    assert_eq!(rt; answer(rt.alloc(), &dims, &rows, &mut out)?, Ok(58));
    assert!(rt; out[0..58] == EXAMPLE[0..58]);
    assert_eq!(rt; out[58], 9);
    let mut cells = [Total { count: 9, sum: 9 }; 4];
    let mut file = ChunkFile::open(&out[0..58])?;
    file.fetch(1, &mut cells)?;
    assert_eq!(rt; cells[0], Total { count: 0, sum: 0 });
    assert_eq!(rt; cells[1], Total { count: 1, sum: 7 });
    assert_eq!(rt; cells[3], Total { count: 1, sum: 1 });
    Ok(())
}

#[test]
fn a_full_chunk_has_words(rt: HostRuntime) -> Result<(), Fail> {
    let dims = [cut(10, 10)];
    let rows = [
        row(9, 0, 1),
        row(2, 0, 0),
        row(4, 0, 3),
        row(0, 0, 7),
        row(5, 0, 2),
    ];
    let mut out = [9; 60];
    assert_eq!(rt; answer(rt.alloc(), &dims, &rows[0..4], &mut out)?, Ok(44));
    assert!(rt; out[12..20] == [20, 0, 0, 0, 4, 0, 0, 0]);
    assert_eq!(rt; answer(rt.alloc(), &dims, &rows, &mut out)?, Ok(60));
    assert!(rt; out[12..20] == [20, 0, 0, 0, 5, 0, 1, 0]);
    Ok(())
}

// More rows than a sort puts in place one by one.
#[test]
fn many_rows_in_falling_order(rt: HostRuntime) -> Result<(), Fail> {
    let dims = [cut(64, 64)];
    let mut rows: [Row; 64] = array::from_fn(|i| row(63 - i as u32, 0, i as u32));
    let mut out = [9; 276];
    assert_eq!(rt; answer(rt.alloc(), &dims, &rows, &mut out)?, Ok(276));
    assert!(rt; out[12..20] == [20, 0, 0, 0, 64, 0, 1, 0]);
    assert!(rt; out[20..28] == [63, 0, 0, 0, 62, 0, 0, 0]);
    assert!(rt; out[268..276] == [1, 0, 0, 0, 0, 0, 0, 0]);
    rows[40] = rows[8];
    assert_eq!(rt;
        answer(rt.alloc(), &dims, &rows, &mut out)?,
        Err(WriteRefusal::Twice(40))
    );
    Ok(())
}

#[test]
fn refusals_leave_the_buffer(rt: HostRuntime) -> Result<(), Fail> {
    let dims = [cut(4, 2), cut(2, 2)];
    let rows = [
        row(0, 0, 5),
        row(3, 0, 7),
        row(3, 1, 1),
        row(3, 0, 7),
        row(0, 0, 6),
        row(4, 0, 1),
    ];
    let mut out = [9; 57];
    assert_eq!(rt;
        answer(rt.alloc(), &dims, &rows, &mut out)?,
        Err(WriteRefusal::Row(5))
    );
    assert_eq!(rt;
        answer(rt.alloc(), &dims, &rows[0..5], &mut out)?,
        Err(WriteRefusal::Twice(3))
    );
    assert_eq!(rt;
        answer(rt.alloc(), &dims, &rows[0..3], &mut out)?,
        Err(WriteRefusal::Room(58))
    );
    assert!(rt; out == [9; 57]);
    let many = [cut(16384, 1), cut(16384, 1), cut(64, 1)];
    assert_eq!(rt;
        answer(rt.alloc(), &many, &rows[0..3], &mut out)?,
        Err(WriteRefusal::Long)
    );
    assert_eq!(rt; WriteRefusal::Room(58).number(), 26);
    assert_eq!(rt; WriteRefusal::Twice(3).place(), 3);
    Ok(())
}
