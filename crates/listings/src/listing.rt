// The listing of an input.
ghost use Rattle.std.specs.Prelude.{◌≡◌, ◌≤◌, take, IfOk, MatchResult, Some, None, string_bytes};
ghost use Rattle.sources.specs.Meanings.{means};
ghost use Rattle.chunk_files.specs.Layouts.{file_dims};
ghost use Rattle.runs.specs.Planned.{need_of};
ghost use Rattle.listings.specs.Listings.{summary_lines, given_cells, listing_fault, file_listing, kind_listing, most_bytes, listing};
ghost use Rattle.listings.specs.Refusals.{list_refusal};
ghost use Rattle.listings.specs.SecondLine.{LeastNeedAndUnreadable};

use crate::driving::add_all_blocks;
use crate::first_lines::add_first_lines;
use crate::letters::{Kind, read_letter};
use crate::lines::{add_end_line, refused_lines};
use crate::listed::Listed;
use crate::refusals::ListRefusal;
use chunk_files::ChunkFile;
use measures::{Marks, Range, Total};
use plans::Plan;
use runs::Run;
use shapes::Cause;
use sources::{Shaped, Source};
use std::alloc::{AllocError, Global};

// The cells that a listing has to work in, and the bytes that it reads at most.
const GIVEN_CELLS: usize = 2_048;

const MOST_BYTES: usize = 32_768;

// All lines of a source, by a run over the given cells.
fn list_source<M: Listed, S: Source<M>>(
    heap: Global,
    source: &mut S,
    need: u64,
) -> Result<String, AllocError>
    requires needs { need ≡ need_of (S.Shaped.told source.old) }
    requires enough { need_of (S.Shaped.told source.old) ≤ given_cells }
    ensures { IfOk result (λ s. string_bytes s ≡ summary_lines M.Measure.empty M.Measure.columns M.Measure.op (means S.Shaped.told S.contents source.old)) }
{
    let mut cells = [M::empty(); GIVEN_CELLS];
    let mut buffer = [M::empty(); GIVEN_CELLS];
    let mut text = String::new(heap);
    add_first_lines(&mut text, source, need, &mut buffer)?;
    let mut run = Run::make(source.shape(), &mut cells);
    let listed = add_all_blocks(&mut text, &mut run, source, &mut buffer);
    let closed = run.close();
    listed?;
    add_end_line(&mut text, closed.taken, closed.skipped, closed.handed)?;
    Ok(text)
}

// The file in these bytes, and what its plan needs, if that is given.
fn open_planned(bytes: &[u8]) -> Result<(ChunkFile<'_>, u64), ListRefusal>
    ensures { MatchResult result (λ r. (listing_fault bytes.now ≡ None) × (r.0.bytes.now ≡ bytes.now) × (r.1 ≡ need_of (file_dims bytes.now)) × (r.1 ≤ given_cells)) (λ e. listing_fault bytes.now ≡ Some (list_refusal e)) }
{
    let file = ChunkFile::open(bytes)?;
    let plan = Plan::of(&file.shape());
    plan.check(GIVEN_CELLS)?;
    Ok((file, plan.need()))
}

// The listing of the bytes of a file in a measure.
fn list_as<M: Listed>(heap: Global, bytes: &[u8]) -> Result<String, AllocError>
    ensures { IfOk result (λ s. string_bytes s ≡ file_listing M.Measure.empty M.Measure.columns M.Measure.op M.Measure.lifted bytes.now) }
{
    match open_planned(bytes) {
        Ok((mut file, need)) => list_source::<M, _>(heap, &mut file, need),
        Err(e) => refused_lines(heap, e.number(), e.place()),
    }
}

fn list_kind(heap: Global, kind: Kind, bytes: &[u8]) -> Result<String, AllocError>
    ensures { IfOk result (λ s. string_bytes s ≡ kind_listing kind bytes.now) }
{
    match kind {
        Kind::Total => list_as::<Total>(heap, bytes),
        Kind::Range => list_as::<Range>(heap, bytes),
        Kind::Marks => list_as::<Marks>(heap, bytes),
    }
}

// The bytes that are read of an input.
fn front(input: &[u8]) -> &[u8]
    ensures { result.now ≡ take most_bytes input.now }
{
    &input[..input.len().min(MOST_BYTES)]
}

/// The listing of an input: the summaries of the chunk file in it, or why the file is refused. Want of memory is the only other answer.
pub fn list_input(heap: Global, input: &[u8]) -> Result<String, AllocError>
    ensures text { IfOk result (λ s. string_bytes s ≡ listing input.now) }
    ensures least_need_and_unreadable { IfOk result (λ s. LeastNeedAndUnreadable input.now (string_bytes s)) }
{
    let (kind, file) = read_letter(front(input));
    list_kind(heap, kind, file)
}
