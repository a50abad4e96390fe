// What a written file means.
ghost use Rattle.std.specs.Prelude.{◌≡◌};
ghost use Rattle.shapes.specs.Views.{dims_of};
ghost use Rattle.sources.specs.Meanings.{Alike};
ghost use Rattle.chunk_writers.specs.Trips.{WrittenOf, file_meaning, rows_meaning};

use chunk_files::ChunkFile;
use measures::Measure;
use sources::RowTable;

/// Over any measure, an opened file means what a table of rows means, where the file is what a write of these rows left.
pub fn written_means_rows<M: Measure>(file: &ChunkFile<'_>, table: &RowTable<'_>)
    ensures { WrittenOf (dims_of table.now.shape) table.now.rows.now file.now.bytes.now → Alike (file_meaning M.empty M.op M.lifted file.now.bytes.now) (rows_meaning M.empty M.op M.lifted (dims_of table.now.shape) table.now.rows.now) }
{}
