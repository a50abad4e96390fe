// Writes chunk files, damages copies of them in every way that one cut or one flipped bit can, and tells what opening and fetching them found.
#![tactic(auto)]

mod survey;

use anyhow::{Context, anyhow};
use chunk_writers::write;
use shapes::{Dim, Shape};
use sources::Row;
use survey::{cut_everywhere, flip_every_bit};

fn row(x: u32, y: u32, reading: u32) -> Row {
    Row {
        at: [x, y, 0, 0, 0, 0],
        reading,
    }
}

fn run(rt: &HostRuntime) -> anyhow::Result<()> {
    let dims = [Dim { size: 4, edge: 2 }, Dim { size: 2, edge: 2 }];
    let shape = Shape::new(&dims).map_err(|_| anyhow!("no shape"))?;
    let rows = [row(0, 0, 5), row(3, 0, 7), row(3, 1, 1)];
    let mut room = [0; 64];
    let n = write(rt.alloc(), &shape, &rows, &mut room).map_err(|_| anyhow!("not written"))?;
    println!(rt; "WRITTEN {n}")?;
    let file = room.get_mut(..n).context("too long")?;
    println!(rt; "CUTS {}", cut_everywhere(file))?;
    println!(rt; "FLIPS {}", flip_every_bit(file))?;
    Ok(())
}

fn main(rt: HostRuntime) -> anyhow::Result<()> {
    run(&rt)
}
