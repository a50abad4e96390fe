// The body of a chunk, from the keys of its rows.
ghost use Rattle.std.specs.Prelude.{◌≡◌, ◌+◌, ◌*◌, ◌≤◌, length};
ghost use Rattle.std.specs.List.{flat_map};
ghost use Rattle.chunk_files.specs.Bodies.{pair_bytes, cell_bytes, filled};
ghost use Rattle.chunk_writers.specs.Kinds.{made_kind};
ghost use Rattle.chunk_writers.specs.Segments.{Kept, Climbs};
ghost use Rattle.chunk_writers.specs.Written.{put, body_bytes, made_entry, pairs_of};

use crate::keys::Key;
use crate::puts::{put_bytes, put_pair};
use chunk_files::{BodyKind, Entry};
use sources::Row;

// Each byte of the word of an empty cell.
const EMPTY: u8 = 255;

// The rows in a chunk of so many cells, by their keys.
#[derive(Clone, Copy)]
pub(crate) struct Body<'a> {
    pub(crate) cells: usize,
    pub(crate) rows: &'a [Row],
    pub(crate) keys: &'a [Key],
    ghost small: { cells ≤ 16384 },
    ghost few: { length keys.now ≤ cells },
    ghost kept: { Kept rows.now cells keys.now },
    ghost climbs: { Climbs keys.now },
}

impl<'a> Body<'a> {
    ghost use Rattle.chunk_writers.specs.Tables.{cells_of};

    fn kind(&self) -> BodyKind
        ensures { result ≡ made_kind self.now.cells (filled (cells_of self.now)) }
    {
        if self.keys.len() * 5 > self.cells * 2 {
            BodyKind::Words
        } else {
            BodyKind::Pairs
        }
    }

    // How many bytes it has.
    pub(crate) fn size(&self) -> usize
        ensures size { result ≡ length (body_bytes self.now.cells (cells_of self.now)) }
        ensures bound { result ≤ 10 * length self.now.keys.now }
    {
        match self.kind() {
            BodyKind::Pairs => 6 * self.keys.len(),
            BodyKind::Words => 4 * self.cells,
        }
    }

    // Its entry, where it starts at this byte.
    pub(crate) fn entry(&self, start: u32) -> Entry
        ensures { result ≡ made_entry self.now.cells start (filled (cells_of self.now)) }
    {
        Entry {
            start,
            count: self.keys.len() as u16,
            kind: u8::from(self.kind()),
            spare: 0,
        }
    }

    // A pair for each key.
    fn put_pairs(&self, out: &mut [u8], at: usize)
        requires { at + 6 * length self.now.keys.now ≤ length out.old }
        ensures { out.new ≡ put out.old at (flat_map pair_bytes (pairs_of 0 (cells_of self.now))) }
    {
        for (i, key) in self.keys.iter().enumerate() {
            let row = self.rows[key.row];
            put_pair(out, at + 6 * i, key.offset as u16, row.reading);
        }
    }

    // A word for each cell: that of an empty one, and then the readings.
    fn put_words(&self, out: &mut [u8], at: usize)
        requires { at + 4 * self.now.cells ≤ length out.old }
        ensures { out.new ≡ put out.old at (flat_map cell_bytes (cells_of self.now)) }
    {
        out[at..at + 4 * self.cells].fill(EMPTY);
        for key in self.keys {
            let row = self.rows[key.row];
            put_bytes(
                out,
                at + 4 * key.offset as usize,
                &row.reading.to_le_bytes(),
            );
        }
    }

    pub(crate) fn put(&self, out: &mut [u8], at: usize)
        requires { at + length (body_bytes self.now.cells (cells_of self.now)) ≤ length out.old }
        ensures { out.new ≡ put out.old at (body_bytes self.now.cells (cells_of self.now)) }
    {
        match self.kind() {
            BodyKind::Pairs => self.put_pairs(out, at),
            BodyKind::Words => self.put_words(out, at),
        }
    }
}
