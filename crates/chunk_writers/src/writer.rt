// Rows written as a chunk file.
ghost use Rattle.std.specs.Prelude.{◌≡◌, ℕ, ◌<◌, ◌≤◌, ◌⊎◌, length, take, IfOk, None, Ok, Err, MatchResult};
ghost use Rattle.shapes.specs.Views.{dims_of};
ghost use Rattle.sources.specs.Rows.{first_outside};
ghost use Rattle.chunk_writers.specs.declared.refusals.WriteRefusal.TheVariants.{Memory as no_memory};
ghost use Rattle.chunk_writers.specs.Trips.{ReadBack, WrittenOf};
ghost use Rattle.chunk_writers.specs.Tables.{cells_in};
ghost use Rattle.chunk_writers.specs.Written.{file_bytes};
ghost use Rattle.chunk_writers.specs.Answers.{room_answer, write_answer, bytes_after, file_after};

use crate::keys::{least_repeated, sorted_keys};
use crate::puts::put_header;
use crate::refusals::WriteRefusal;
use crate::table::Table;
use shapes::Shape;
use sources::{Row, RowTable};
use std::alloc::Global;

// 25 and 26: the bytes that are needed, where they are not too many, and there is room.
fn check_room(size: usize, room: usize) -> Result<(), WriteRefusal>
    ensures { MatchResult result (λ _. room_answer size room ≡ Ok size) (λ e. room_answer size room ≡ Err e) }
{
    if size > 4294967295 {
        return Err(WriteRefusal::Long);
    }
    if size > room {
        return Err(WriteRefusal::Room(size));
    }
    Ok(())
}

// The file of a table, where there is room for it.
fn put_file(table: &Table<'_>, out: &mut [u8]) -> Result<usize, WriteRefusal>
    ensures answers { result ≡ room_answer (length (file_bytes (dims_of table.now.shape) (cells_in table.now))) (length out.old) }
    ensures bytes { out.new ≡ file_after (file_bytes (dims_of table.now.shape) (cells_in table.now)) out.old result }
{
    let size = table.size();
    check_room(size, out.len())?;
    put_header(out, &table.shape);
    table.put_chunks(out);
    Ok(size)
}

// The checks in their order, and then the file. Apart from `write`, which says of the file that it reads back: each of the two has its own proof.
// Heap, shape and rows are what `write` was given: a struct would be made for this one call.
fn write_file(
    heap: Global,
    shape: &Shape,
    rows: &[Row],
    out: &mut [u8],
) -> Result<usize, WriteRefusal>
    ensures answers { (result ≡ write_answer (dims_of shape.now) rows.now (length out.old)) ⊎ ((result ≡ Err no_memory) × (first_outside (dims_of shape.now) 0 rows.now ≡ None)) }
    ensures bytes { out.new ≡ bytes_after (dims_of shape.now) rows.now out.old result }
{
    RowTable::new(*shape, rows).check()?;
    let keys = sorted_keys(heap, shape, rows)?;
    if let Some(row) = least_repeated(&keys) {
        return Err(WriteRefusal::Twice(row));
    }
    let table = Table {
        shape: *shape,
        rows,
        keys: &keys,
    };
    put_file(&table, out)
}

/// Writes rows as a chunk file into a buffer, from its first byte on, and answers how many bytes the file has. What lies past them stays.
/// Where the write is refused, the whole buffer stays as it was.
///
/// Memory comes from the heap: one piece with a key of 24 bytes for each row, which is given back before the answer. Where there is none, the answer is
/// `WriteRefusal::Memory`; a row out of range is told before that. The keys are sorted in place; then there is a step for each row, each chunk and each cell
/// of a chunk of kind 1. Whether the file is too long or needs more room is known from the keys alone, without a step for each chunk.
pub fn write(
    heap: Global,
    shape: &Shape,
    rows: &[Row],
    out: &mut [u8],
) -> Result<usize, WriteRefusal>
    ensures answers { (result ≡ write_answer (dims_of shape.now) rows.now (length out.old)) ⊎ ((result ≡ Err no_memory) × (first_outside (dims_of shape.now) 0 rows.now ≡ None)) }
    ensures bytes { out.new ≡ bytes_after (dims_of shape.now) rows.now out.old result }
    ensures trip { IfOk result (λ n. ReadBack (dims_of shape.now) rows.now (take n out.new)) }
    ensures written { IfOk result (λ n. WrittenOf (dims_of shape.now) rows.now (take n out.new)) }
{
    write_file(heap, shape, rows, out)
}
