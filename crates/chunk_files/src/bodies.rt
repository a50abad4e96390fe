// The body of a chunk, read into cells.
ghost use Rattle.std.specs.Prelude.{◌≡◌, ◌+◌, ◌*◌, ◌<◌, ◌≤◌, true, false, map, length, replicate, is_some, if◌then◌else◌, Some, None, Ok, Err, MatchResult};
ghost use Rattle.std.specs.Option.{option_map};
ghost use Rattle.shapes.specs.declared.readings.Reading.{Reading as Read};
ghost use Rattle.chunk_files.specs.Layouts.{half, word};
ghost use Rattle.chunk_files.specs.Bodies.{offset_fits, word_fits, word_cell, pair_at, pair_fault, sparse_fault, sparse_cells, dense_fault, dense_cells, body, body_of};
ghost use Rattle.chunk_files.specs.Contents.{lift_or, cell_value, chunk_value};
ghost use Rattle.chunk_files.specs.Refusals.{body_fault};
ghost use Rattle.sources.specs.Meanings.{values, read_answer, cells_of};
ghost use Rattle.sources.specs.declared.refusals.SourceRefusal.TheVariants.{Unreadable};

use crate::bytes::{bytes_from, half_at, word_at};
use crate::entry::Entry;
use crate::faults::{BodyCause, BodyFault};
use crate::kind::BodyKind;
use measures::Measure;
use shapes::Reading;
use sources::{SourceRefusal, empty_cells};

const EMPTY: u32 = 0xFFFF_FFFF;

// The bytes of the body that an entry tells.
pub(crate) fn body_bytes(bytes: &[u8], e: Entry, cells: usize) -> &[u8]
    requires { cells ≤ 16384 }
    ensures { result.now ≡ body_of bytes.now cells e }
{
    let rest = bytes_from(bytes, e.start as usize);
    rest.get(..e.body_length(cells)).unwrap_or(rest)
}

// An offset, if it is `low` at least and below `cells`.
fn checked_offset(offset: u16, low: usize, cells: usize) -> Option<usize>
    ensures { result ≡ (if offset_fits cells low offset then Some offset else None) }
{
    let offset = usize::from(offset);
    (low..cells).contains(&offset).then_some(offset)
}

// Pair k of a body, whose offset has to be `low` at least.
fn checked_pair(raw: &[u8], k: u16, low: usize, cells: usize) -> Result<(usize, Reading), BodyFault>
    ensures { MatchResult result
        (λ p. (pair_fault cells k low (pair_at raw.now (6 * k)) ≡ None) × (p.0 ≡ half raw.now (6 * k)) × (p.1.value ≡ word raw.now (6 * k + 2)) × (low ≤ p.0) × (p.0 < cells))
        (λ e. pair_fault cells k low (pair_at raw.now (6 * k)) ≡ Some (body_fault e)) }
{
    let at = 6 * usize::from(k);
    let Some(offset) = checked_offset(half_at(raw, at), low, cells) else {
        return Err(BodyFault {
            cause: BodyCause::Offset,
            entry: u32::from(k),
        });
    };
    let Some(reading) = Reading::new(word_at(raw, at + 2)) else {
        return Err(BodyFault {
            cause: BodyCause::Reading,
            entry: u32::from(k),
        });
    };
    Ok((offset, reading))
}

// A body of pairs, into cells that are empty.
fn read_pairs<M: Measure>(raw: &[u8], count: u16, cells: &mut [M]) -> Result<(), BodyFault>
    requires fresh { cells.old ≡ replicate (length cells.old) M.empty }
    ensures { MatchResult result
        (λ _. (sparse_fault (length cells.old) count raw.now ≡ None) × (cells.new ≡ map (cell_value M.empty M.lifted) (sparse_cells (length cells.old) count raw.now)))
        (λ e. sparse_fault (length cells.old) count raw.now ≡ Some (body_fault e)) }
{
    let mut low: usize = 0;
    for k in 0..count {
        let (offset, reading) = checked_pair(raw, k, low, cells.len())?;
        cells[offset] = M::lift(reading);
        low = offset + 1;
    }
    Ok(())
}

// Word k of a body: a reading, or none for an empty cell.
fn checked_word(raw: &[u8], k: usize) -> Result<Option<Reading>, BodyFault>
    requires { k < 16384 }
    ensures { MatchResult result
        (λ c. (word_fits (word raw.now (4 * k)) ≡ true) × (option_map (λ (x : Read). x.value) c ≡ word_cell (word raw.now (4 * k))))
        (λ e. (word_fits (word raw.now (4 * k)) ≡ false) × (body_fault e ≡ (2, k))) }
{
    let word = word_at(raw, 4 * k);
    if word == EMPTY {
        return Ok(None);
    }
    Reading::new(word).map(Some).ok_or(BodyFault {
        cause: BodyCause::Reading,
        entry: k as u32,
    })
}

// A match, since `map_or(M::empty(), M::lift)` gets no generated proof at a type parameter.
fn cell_of<M: Measure>(reading: Option<Reading>) -> M
    ensures { result ≡ lift_or M.empty M.lifted reading }
{
    match reading {
        Some(r) => M::lift(r),
        None => M::empty(),
    }
}

// A body of words. That a chunk has few cells is asked here and in the two below: the cells are lent as `&mut`,
// and a ghost field beside one gets no proof.
fn read_words<M: Measure>(raw: &[u8], count: u16, cells: &mut [M]) -> Result<(), BodyFault>
    requires small { length cells.old ≤ 16384 }
    ensures { MatchResult result
        (λ _. (dense_fault (length cells.old) count raw.now ≡ None) × (cells.new ≡ map (cell_value M.empty M.lifted) (dense_cells (length cells.old) raw.now)))
        (λ e. dense_fault (length cells.old) count raw.now ≡ Some (body_fault e)) }
{
    let mut full: u32 = 0;
    for (k, cell) in cells.iter_mut().enumerate() {
        let reading = checked_word(raw, k)?;
        full += u32::from(reading.is_some());
        *cell = cell_of(reading);
    }
    if full != u32::from(count) {
        return Err(BodyFault {
            cause: BodyCause::Count,
            entry: cells.len() as u32,
        });
    }
    Ok(())
}

// A body of either kind, into cells.
fn read_body<M: Measure>(raw: &[u8], e: Entry, cells: &mut [M]) -> Result<(), BodyFault>
    requires small { length cells.old ≤ 16384 }
    ensures { MatchResult result
        (λ _. chunk_value M.empty M.lifted (body (length cells.old) e raw.now) ≡ values cells.new)
        (λ f. body (length cells.old) e raw.now ≡ Err (body_fault f)) }
{
    match e.body_kind() {
        BodyKind::Pairs => {
            empty_cells(cells);
            read_pairs(raw, e.count, cells)
        }
        BodyKind::Words => read_words(raw, e.count, cells),
    }
}

// The fault of a body, as that of its chunk.
fn unreadable(chunk: u64, fault: BodyFault) -> SourceRefusal
    ensures { result ≡ Unreadable chunk (body_fault fault).1 (body_fault fault).0 }
{
    SourceRefusal::Unreadable {
        chunk,
        entry: fault.entry,
        cause: u8::from(fault.cause),
    }
}

// The chunk with an entry, into the cells of a chunk. Where it can't be read, they become empty.
pub(crate) fn read_chunk<M: Measure>(
    bytes: &[u8],
    e: Entry,
    number: u64,
    cells: &mut [M],
) -> Result<(), SourceRefusal>
    requires small { length cells.old ≤ 16384 }
    ensures answers { result ≡ read_answer number (chunk_value M.empty M.lifted (body (length cells.old) e (body_of bytes.now (length cells.old) e))) }
    ensures fills { cells.new ≡ cells_of M.empty (length cells.old) (chunk_value M.empty M.lifted (body (length cells.old) e (body_of bytes.now (length cells.old) e))) }
{
    // A test, since a proof knows nothing of cells that a closure in `map_err` has emptied.
    let read = read_body(body_bytes(bytes, e, cells.len()), e, cells);
    if read.is_err() {
        empty_cells(cells);
    }
    read.map_err(|fault| unreadable(number, fault))
}
