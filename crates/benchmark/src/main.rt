// Runs the chunk file on standard input through to the end with each measure. The counts go to standard output, the fastest of some rounds to standard error.
#![tactic(auto)]

use anyhow::anyhow;
use chunk_files::ChunkFile;
use measures::{Marks, Measure, Range, Total};
use plans::Plan;
use runs::{Counts, survey};
use sources::{Shaped, Source};
use std::io::Read;
use std::time::{Duration, Instant};

// More is not looked at.
const MOST_BYTES: u64 = 1 << 26;

const ROUNDS: u32 = 5;

// One run: its counts, and how long it took.
fn time_once<M: Measure, S: Source<M>>(
    rt: &HostRuntime,
    source: &mut S,
    cells: &mut [M],
    buffer: &mut [M],
) -> anyhow::Result<(Counts, Duration)> {
    let begun = Instant::now(rt)?;
    let counts = survey(source, cells, buffer).map_err(|_| anyhow!("refused"))?;
    Ok((counts, begun.elapsed(rt)?))
}

// Some runs over one file, and a line for each of the two outputs.
fn time<M: Measure>(rt: &HostRuntime, bytes: &[u8]) -> anyhow::Result<()> {
    let mut file = ChunkFile::open(bytes).map_err(|_| anyhow!("no chunk file"))?;
    let shape = file.shape();
    let need = Plan::of(&shape).need() as usize;
    let mut cells = vec![in rt.alloc(); M::empty(); need]?;
    let mut buffer = vec![in rt.alloc(); M::empty(); shape.chunk_cells() as usize]?;
    let letter = char::from(M::LETTER);
    let (counts, mut best) = time_once(rt, &mut file, &mut cells, &mut buffer)?;
    for _ in 1..ROUNDS {
        let (_, took) = time_once(rt, &mut file, &mut cells, &mut buffer)?;
        best = best.min(took);
    }
    println!(rt;
        "{letter} {} {} {}",
        counts.taken, counts.skipped, counts.handed
    )?;
    eprintln!(rt; "{letter} {}", best.as_nanos())?;
    Ok(())
}

fn main(rt: HostRuntime) -> anyhow::Result<()> {
    let mut input = Vec::new(rt.alloc());
    rt.stdin().take(MOST_BYTES).read_to_end(&mut input)?;
    time::<Total>(&rt, &input)?;
    time::<Range>(&rt, &input)?;
    time::<Marks>(&rt, &input)
}
