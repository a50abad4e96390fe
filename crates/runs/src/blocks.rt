// Blocks of regions written out and joined into the regions of children; the root's region filled.
ghost use Rattle.std.specs.Prelude.{◌≡◌, ◌<◌, ◌≤◌, ◌++◌, length, drop};
ghost use Rattle.shapes.specs.Arrays.{product, volume, total_chunks};
ghost use Rattle.sources.specs.Meanings.{means, Sized, read_answer, cells_of};
ghost use Rattle.runs.specs.Grids.{block_edges, Inside, ApartUnder, block_cells, block_joined};

use crate::boxes::{join_box, write_box};
use crate::layouts::{Layout, Region};
use measures::Measure;
use sources::{Source, SourceRefusal};

impl Layout {
    // Writes the cells of a block by offset and returns their number; the rest of the buffer stays.
    pub(crate) fn write_block<M: Measure>(
        &self,
        cells: &[M],
        region: Region,
        block: [u32; 6],
        out: &mut [M],
    ) -> usize
        requires room { product (block_edges self.now region) ≤ length out.old }
        requires inside { Inside self.now region (block_edges self.now region) block (length cells.now) }
        ensures count { result ≡ product (block_edges self.now region) }
        ensures out { out.new ≡ block_cells M.empty cells.now self.now region block ++ drop (product (block_edges self.now region)) out.old }
    {
        let edges = self.block_edges(region);
        write_box(cells, edges, self.grid(region, block), out);
        edges.product() as usize
    }

    // Joins each cell of a parent's block into the child's cell under it: the dimension that the child lacks is dropped.
    pub(crate) fn join_block<M: Measure>(
        &self,
        cells: &mut [M],
        parent: Region,
        child: Region,
        block: [u32; 6],
    )
        requires from_inside { Inside self.now parent (block_edges self.now parent) block (length cells.old) }
        requires to_inside { Inside self.now child (block_edges self.now parent) block (length cells.old) }
        requires apart { ApartUnder self.now parent child block }
        ensures { cells.new ≡ block_joined M.empty M.op cells.old self.now parent child block }
    {
        let edges = self.block_edges(parent);
        let from = self.grid(parent, block);
        let to = self.grid(child, block);
        join_box(cells, edges, from, to);
    }
}

// Fetches a chunk into the root's region, which is the first V cells, by offset; where the chunk can't be read they become empty. The others stay.
pub(crate) fn fill_root<M: Measure, S: Source<M>>(
    cells: &mut [M],
    source: &mut S,
    number: u64,
) -> Result<(), SourceRefusal>
    requires known { number < total_chunks (S.Shaped.told source.old) }
    requires room { volume (S.Shaped.told source.old) ≤ length cells.old }
    ensures same { means S.Shaped.told S.contents source.new ≡ means S.Shaped.told S.contents source.old }
    ensures sized { Sized (means S.Shaped.told S.contents source.old) }
    ensures answers { result ≡ read_answer number (S.contents source.old number) }
    ensures fills { cells.new ≡ cells_of M.empty (volume (S.Shaped.told source.old)) (S.contents source.old number) ++ drop (volume (S.Shaped.told source.old)) cells.old }
{
    source.fetch(number, cells)
}
