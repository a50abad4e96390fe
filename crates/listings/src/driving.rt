// A run driven to its end, and the lines of the blocks that it hands out. `survey` of runs drives one too, but can't stop on the way, as want of memory does here.
ghost use Rattle.std.specs.Prelude.{◌≡◌, ◌+◌, ◌<◌, ◌≤◌, false, length, string_bytes, OnOk};
ghost use Rattle.shapes.specs.Arrays.{total_chunks, volume};
ghost use Rattle.sources.specs.Meanings.{Meaning, means};
ghost use Rattle.runs.specs.Answers.{passed, waits};
ghost use Rattle.runs.specs.Holdings.{dims_in, moment, view};
ghost use Rattle.listings.specs.Making.{Driven, Ends, GoesOn};

use crate::blocks::add_block_lines;
use crate::listed::Listed;
use measures::Measure;
use runs::Run;
use sources::{Shaped, Source};
use std::alloc::AllocError;

// Passes the next chunk: it is taken if it can be read, else skipped.
fn pass_chunk<M: Measure, S: Source<M>>(run: &mut Run<'_, M>, source: &mut S)
    requires driven { Driven M.empty M.op (means S.Shaped.told S.contents source.old) (moment run.old) }
    requires idle { waits (view (moment run.old)) ≡ false }
    requires more { passed (view (moment run.old)) < total_chunks (S.Shaped.told source.old) }
    ensures same { means S.Shaped.told S.contents source.new ≡ means S.Shaped.told S.contents source.old }
    ensures driven { Driven M.empty M.op (means S.Shaped.told S.contents source.old) (moment run.new) }
    ensures passed { passed (view (moment run.new)) ≡ passed (view (moment run.old)) + 1 }
    ensures handed { (view (moment run.new)).handed ≡ (view (moment run.old)).handed }
{
    if run.take(source).is_err() {
        let _ = run.skip(source);
    }
}

// Hands out the blocks that wait, and writes their lines.
fn add_waiting_blocks<M: Listed>(
    text: &mut String,
    run: &mut Run<'_, M>,
    buffer: &mut [M],
) -> Result<(), AllocError>
    requires room { volume (dims_in (moment run.old)) ≤ length buffer.old }
    ensures { OnOk result ((σ : Meaning M) → Driven M.Measure.empty M.Measure.op σ (moment run.old) → (waits (view (moment run.new)) ≡ false) × GoesOn M.Measure.empty M.Measure.columns M.Measure.op σ (moment run.old) (string_bytes text.old) (moment run.new) (string_bytes text.new)) }
{
    while let Ok((mask, number, cells)) = run.hand(buffer) {
        add_block_lines(text, mask as u64, number, &buffer[..cells])?;
    }
    Ok(())
}

// Passes every chunk of the source, and writes the lines of all blocks.
pub(crate) fn add_all_blocks<M: Listed, S: Source<M>>(
    text: &mut String,
    run: &mut Run<'_, M>,
    source: &mut S,
    buffer: &mut [M],
) -> Result<(), AllocError>
    requires driven { Driven M.Measure.empty M.Measure.op (means S.Shaped.told S.contents source.old) (moment run.old) }
    requires fresh { (passed (view (moment run.old)) ≡ 0) × ((view (moment run.old)).handed ≡ 0) }
    requires room { volume (S.Shaped.told source.old) ≤ length buffer.old }
    ensures { OnOk result (Ends M.Measure.empty M.Measure.columns M.Measure.op (means S.Shaped.told S.contents source.old) (string_bytes text.old) (moment run.new) (string_bytes text.new)) }
{
    for _scan in 0..source.shape().total_chunks() {
        pass_chunk(run, source);
        add_waiting_blocks(text, run, buffer)?;
    }
    Ok(())
}
