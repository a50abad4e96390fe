// Runs over an array of 4 by 2 in two chunks of 2 by 2.
use chunk_files::ChunkFile;
use measures::Total;
use runs::{Closed, Counts, Run, RunRefusal, survey};
use shapes::{Dim, Shape, ShapeRefusal};
use sources::{Row, RowTable};
use std::test::Fail;

// Readings (0,0) = 5, (3,0) = 7, (3,1) = 1 as a chunk file.
const FILE: [u8; 58] = [
    1, 2, 0, 0, 4, 0, 0, 0, 2, 0, 0, 0, 2, 0, 0, 0, 2, 0, 0, 0, 36, 0, 0, 0, 1, 0, 0, 0, 42, 0, 0,
    0, 2, 0, 1, 0, 0, 0, 5, 0, 0, 0, 255, 255, 255, 255, 7, 0, 0, 0, 255, 255, 255, 255, 1, 0, 0,
    0,
];

fn small_shape() -> Result<Shape, ShapeRefusal> {
    Shape::new(&[Dim { size: 4, edge: 2 }, Dim { size: 2, edge: 2 }])
}

fn row(x: u32, y: u32, reading: u32) -> Row {
    Row {
        at: [x, y, 0, 0, 0, 0],
        reading,
    }
}

fn total(count: u64, sum: u64) -> Total {
    Total { count, sum }
}

#[test]
fn blocks_come_in_handing_order(rt: HostRuntime) -> Result<(), Fail> {
    let shape = small_shape()?;
    let rows = [row(0, 0, 5), row(3, 0, 7), row(3, 1, 1)];
    let mut table = RowTable::new(shape, &rows);
    let mut cells = [total(9, 9); 10];
    let mut buffer = [total(8, 8); 5];
    let mut run = Run::make(shape, &mut cells);
    let none = run.hand(&mut buffer);
    let taken = run.take(&mut table);
    let waiting = run.take(&mut table);
    let first = run.hand(&mut buffer);
    let second = run.hand(&mut buffer);
    let counts = run.count();
    let closed = run.close();
    assert_eq!(rt; none, Err(RunRefusal::NoBlock));
    assert_eq!(rt; taken, Ok(()));
    assert_eq!(rt; waiting, Err(RunRefusal::BlockWaits));
    assert_eq!(rt; first, Ok((3, 0, 4)));
    assert_eq!(rt; second, Ok((1, 0, 2)));
    assert_eq!(rt; buffer[0], total(1, 5));
    assert_eq!(rt; buffer[1], total(0, 0));
    assert_eq!(rt; buffer[4], total(8, 8));
    assert_eq!(rt;
        counts,
        Counts {
            taken: 1,
            skipped: 0,
            handed: 2,
            done: false,
        }
    );
    assert_eq!(rt;
        closed,
        Closed {
            taken: 1,
            skipped: 0,
            handed: 2,
        }
    );
    assert_eq!(rt; cells[0], total(0, 0));
    assert_eq!(rt; cells[8], total(0, 0));
    assert_eq!(rt; cells[9], total(9, 9));
    Ok(())
}

#[test]
fn too_few_cells_are_not_touched(rt: HostRuntime) -> Result<(), Fail> {
    let shape = small_shape()?;
    let mut table = RowTable::new(shape, &[]);
    let mut cells = [total(9, 9); 8];
    let mut buffer = [total(8, 8); 4];
    let mut run = Run::make(shape, &mut cells);
    let take = run.take(&mut table);
    let skip = run.skip(&mut table);
    let hand = run.hand(&mut buffer);
    let counts = run.count();
    let _ = run.close();
    assert_eq!(rt; take, Err(RunRefusal::TooFew(9)));
    assert_eq!(rt; skip, Err(RunRefusal::TooFew(9)));
    assert_eq!(rt; hand, Err(RunRefusal::TooFew(9)));
    assert_eq!(rt; counts.done, false);
    assert_eq!(rt; cells[0], total(9, 9));
    assert_eq!(rt; buffer[0], total(8, 8));
    Ok(())
}

// The second chunk has a reading over the limit in its second word.
#[test]
fn an_unreadable_chunk_is_skipped(rt: HostRuntime) -> Result<(), Fail> {
    let mut bytes = FILE;
    bytes[49] = 255;
    let mut file = ChunkFile::open(&bytes)?;
    let shape = small_shape()?;
    let mut other = RowTable::new(
        Shape::new(&[Dim { size: 4, edge: 2 }, Dim { size: 2, edge: 1 }])?,
        &[],
    );
    let mut cells = [total(9, 9); 9];
    let mut buffer = [total(8, 8); 4];
    let mut tiny = [total(8, 8); 3];
    let mut run = Run::make(shape, &mut cells);
    let readable = run.skip(&mut file);
    let strange = run.take(&mut other);
    let first = run.take(&mut file);
    let short = run.hand(&mut tiny);
    let _ = run.hand(&mut buffer);
    let _ = run.hand(&mut buffer);
    let fault = run.take(&mut file);
    let skipped = run.skip(&mut file);
    let root = run.hand(&mut buffer);
    let _ = run.hand(&mut buffer);
    let _ = run.hand(&mut buffer);
    let last = run.hand(&mut buffer);
    let all = run.take(&mut file);
    let counts = run.count();
    let _ = run.close();
    assert_eq!(rt; readable, Err(RunRefusal::Readable));
    assert_eq!(rt; strange, Err(RunRefusal::OtherShape));
    assert_eq!(rt; first, Ok(()));
    assert_eq!(rt; short, Err(RunRefusal::ShortBuffer(4)));
    assert_eq!(rt;
        fault,
        Err(RunRefusal::Unreadable {
            scan: 1,
            chunk: 1,
            entry: 1,
            cause: 2,
        })
    );
    assert_eq!(rt; skipped, Ok(()));
    assert_eq!(rt; root, Ok((3, 1, 4)));
    assert_eq!(rt; last, Ok((0, 0, 1)));
    assert_eq!(rt; all, Err(RunRefusal::AllPassed));
    assert_eq!(rt; buffer[0], total(1, 5));
    assert_eq!(rt;
        counts,
        Counts {
            taken: 1,
            skipped: 1,
            handed: 6,
            done: true,
        }
    );
    Ok(())
}

#[test]
fn a_source_is_surveyed(rt: HostRuntime) -> Result<(), Fail> {
    let mut bytes = FILE;
    let mut cells = [total(9, 9); 10];
    let mut buffer = [total(8, 8); 4];
    bytes[49] = 255;
    let mut file = ChunkFile::open(&bytes)?;
    assert_eq!(rt;
        survey(&mut file, &mut cells[0..8], &mut buffer),
        Err(RunRefusal::TooFew(9))
    );
    assert_eq!(rt;
        survey(&mut file, &mut cells, &mut buffer[0..3]),
        Err(RunRefusal::ShortBuffer(4))
    );
    assert_eq!(rt;
        survey(&mut file, &mut cells, &mut buffer),
        Ok(Counts {
            taken: 1,
            skipped: 1,
            handed: 6,
            done: true,
        })
    );
    assert_eq!(rt; cells[9], total(9, 9));
    Ok(())
}
