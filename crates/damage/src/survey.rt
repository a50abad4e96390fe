// What opening and fetching of damaged files found.
use chunk_files::{BodyCause, ChunkFile};
use measures::{Measure, Total};
use sources::{Shaped, Source, SourceRefusal};
use std::fmt;

// How many files were tried and opened, how many chunks the opened ones have, how many of these can be read, and of the others how many for each cause.
#[derive(Clone, Copy, Default)]
pub struct Tally {
    files: u64,
    opened: u64,
    chunks: u64,
    readable: u64,
    offset: u64,
    reading: u64,
    count: u64,
}

fn add_one(n: &mut u64) {
    *n = n.saturating_add(1);
}

impl Tally {
    fn note(&mut self, answer: Result<(), SourceRefusal>) {
        add_one(&mut self.chunks);
        match answer {
            Ok(()) => add_one(&mut self.readable),
            Err(SourceRefusal::Unreadable { cause, .. }) => self.blame(cause),
            Err(_) => {}
        }
    }

    // The source's fault has a number; it is made a cause again here.
    fn blame(&mut self, cause: u8) {
        match BodyCause::try_from(cause) {
            Ok(BodyCause::Offset) => add_one(&mut self.offset),
            Ok(BodyCause::Reading) => add_one(&mut self.reading),
            Ok(BodyCause::Count) => add_one(&mut self.count),
            Err(_) => {}
        }
    }

    // One file more.
    fn try_file(&mut self, bytes: &[u8]) {
        add_one(&mut self.files);
        let Ok(mut file) = ChunkFile::open(bytes) else {
            return;
        };
        add_one(&mut self.opened);
        let mut cells = [Total::empty(); 64];
        for number in 0..file.shape().total_chunks() {
            self.note(file.fetch(number, &mut cells));
        }
    }
}

impl fmt::Display for Tally {
    fn fmt<W: fmt::Write>(&self, f: &mut fmt::Formatter<W>) -> fmt::Result {
        write!(
            f,
            "{} OPENED {} CHUNKS {} READABLE {} OFFSET {} READING {} COUNT {}",
            self.files,
            self.opened,
            self.chunks,
            self.readable,
            self.offset,
            self.reading,
            self.count
        )
    }
}

// Each front of a file that is shorter than the file.
pub fn cut_everywhere(file: &[u8]) -> Tally {
    let mut tally = Tally::default();
    for n in 0..file.len() {
        tally.try_file(&file[..n]);
    }
    tally
}

// The file with each of its bits flipped, one at a time.
pub fn flip_every_bit(file: &mut [u8]) -> Tally {
    let mut tally = Tally::default();
    // By index, since the whole file is read while one byte of it is damaged.
    for i in 0..file.len() {
        for bit in 0u32..8 {
            file[i] ^= 1u8 << bit;
            tally.try_file(file);
            file[i] ^= 1u8 << bit;
        }
    }
    tally
}
