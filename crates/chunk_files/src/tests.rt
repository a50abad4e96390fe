// A file of 4 by 2 cells in two chunks, whole and damaged.
use crate::faults::BodyCause;
use crate::file::ChunkFile;
use crate::kind::BodyKind;
use crate::refusals::{FileRefusal, UnknownNumber};
use measures::{Measure, Total};
use shapes::{Cause, ShapeRefusal};
use sources::{Shaped, Source, SourceRefusal};
use std::test::Fail;

// Readings 5 at (0, 0), 7 at (3, 0), 1 at (3, 1): chunk 0 is of kind 0, chunk 1 of kind 1.
fn example() -> [u8; 58] {
    [
        1, 2, 0, 0, 4, 0, 0, 0, 2, 0, 0, 0, 2, 0, 0, 0, 2, 0, 0, 0, 36, 0, 0, 0, 1, 0, 0, 0, 42, 0,
        0, 0, 2, 0, 1, 0, 0, 0, 5, 0, 0, 0, 255, 255, 255, 255, 7, 0, 0, 0, 255, 255, 255, 255, 1,
        0, 0, 0,
    ]
}

// The header of a file of 2^34 chunks.
fn large() -> [u8; 28] {
    [
        1, 3, 0, 0, 0, 64, 0, 0, 1, 0, 0, 0, 0, 64, 0, 0, 1, 0, 0, 0, 64, 0, 0, 0, 1, 0, 0, 0,
    ]
}

// The example with another byte at one place.
fn damaged(at: usize, byte: u8) -> [u8; 58] {
    let mut bytes = example();
    if at < 58 {
        bytes[at] = byte;
    }
    bytes
}

fn refusal(bytes: &[u8]) -> Option<FileRefusal> {
    match ChunkFile::open(bytes) {
        Ok(_) => None,
        Err(e) => Some(e),
    }
}

fn total(count: u64, sum: u64) -> Total {
    Total { count, sum }
}

// Fetches a chunk of the example with another byte at one place.
fn fetched(
    at: usize,
    byte: u8,
    number: u64,
    cells: &mut [Total],
) -> Result<Result<(), SourceRefusal>, FileRefusal> {
    let bytes = damaged(at, byte);
    let mut file = ChunkFile::open(&bytes)?;
    Ok(file.fetch(number, cells))
}

#[test]
fn the_example_is_read(rt: HostRuntime) -> Result<(), Fail> {
    let bytes = example();
    let mut file = ChunkFile::open(&bytes)?;
    assert_eq!(rt; file.shape().total_chunks(), 2);
    let mut cells = [total(9, 9); 5];
    file.fetch(0, &mut cells)?;
    assert_eq!(rt; cells[0], total(1, 5));
    assert_eq!(rt; cells[1], total(0, 0));
    file.fetch(1, &mut cells)?;
    assert_eq!(rt; cells[0], total(0, 0));
    assert_eq!(rt; cells[1], total(1, 7));
    assert_eq!(rt; cells[3], total(1, 1));
    assert_eq!(rt; cells[4], total(9, 9));
    assert_eq!(rt; file.fetch(2, &mut cells), Err(SourceRefusal::Beyond));
    assert_eq!(rt;
        file.fetch(0, &mut cells[0..3]),
        Err(SourceRefusal::Short(4))
    );
    Ok(())
}

#[test]
fn bytes_that_end_early_are_refused(rt: HostRuntime) {
    let bytes = example();
    assert_eq!(rt; refusal(&bytes[0..3]), Some(FileRefusal::Short));
    assert_eq!(rt; refusal(&bytes[0..19]), Some(FileRefusal::Short));
    assert_eq!(rt; refusal(&bytes[0..35]), Some(FileRefusal::Short));
    assert_eq!(rt; refusal(&bytes[0..57]), Some(FileRefusal::End));
    assert_eq!(rt; refusal(&large()), Some(FileRefusal::Short));
}

#[test]
fn a_wrong_header_is_refused(rt: HostRuntime) {
    assert_eq!(rt; refusal(&damaged(0, 2)), Some(FileRefusal::Mark));
    assert_eq!(rt; refusal(&damaged(3, 1)), Some(FileRefusal::Mark));
    assert_eq!(rt;
        refusal(&damaged(1, 7)),
        Some(FileRefusal::Shape(ShapeRefusal::Dimensions))
    );
    let division = FileRefusal::Shape(ShapeRefusal::Division(0));
    assert_eq!(rt; refusal(&damaged(8, 3)), Some(division));
    assert_eq!(rt; division.number(), 4);
}

#[test]
fn a_wrong_entry_is_refused(rt: HostRuntime) {
    assert_eq!(rt; refusal(&damaged(20, 37)), Some(FileRefusal::Entry(0)));
    assert_eq!(rt; refusal(&damaged(24, 5)), Some(FileRefusal::Entry(0)));
    assert_eq!(rt; refusal(&damaged(34, 2)), Some(FileRefusal::Entry(1)));
    assert_eq!(rt; refusal(&damaged(35, 1)), Some(FileRefusal::Entry(1)));
    assert_eq!(rt; FileRefusal::Entry(1).place(), 1);
}

#[test]
fn a_bad_body_makes_its_chunk_unreadable(rt: HostRuntime) -> Result<(), Fail> {
    let mut cells = [total(9, 9); 5];
    let offset = SourceRefusal::Unreadable {
        chunk: 0,
        entry: 0,
        cause: 1,
    };
    assert_eq!(rt; fetched(36, 4, 0, &mut cells)?, Err(offset));
    assert_eq!(rt; cells[0], total(0, 0));
    assert_eq!(rt; cells[4], total(9, 9));
    let reading = SourceRefusal::Unreadable {
        chunk: 1,
        entry: 1,
        cause: 2,
    };
    assert_eq!(rt; fetched(49, 1, 1, &mut cells)?, Err(reading));
    let count = SourceRefusal::Unreadable {
        chunk: 1,
        entry: 4,
        cause: 3,
    };
    assert_eq!(rt; fetched(32, 3, 1, &mut cells)?, Err(count));
    assert_eq!(rt; fetched(32, 3, 0, &mut cells)?, Ok(()));
    Ok(())
}

#[test]
fn reading_0_is_a_filled_cell(rt: HostRuntime) -> Result<(), Fail> {
    let mut cells = [total(9, 9); 4];
    assert_eq!(rt; fetched(38, 0, 0, &mut cells)?, Ok(()));
    assert_eq!(rt; cells[0], total(1, 0));
    Ok(())
}

#[test]
fn kinds_and_causes_have_their_numbers(rt: HostRuntime) {
    assert_eq!(rt; u8::from(BodyKind::Words), 1);
    assert_eq!(rt; BodyKind::try_from(0u8), Ok(BodyKind::Pairs));
    assert_eq!(rt; BodyKind::try_from(2u8), Err(UnknownNumber { number: 2 }));
    assert_eq!(rt; u8::from(BodyCause::Count), 3);
    assert_eq!(rt; BodyCause::try_from(1u8), Ok(BodyCause::Offset));
    assert_eq!(rt; BodyCause::try_from(0u8), Err(UnknownNumber { number: 0 }));
}
