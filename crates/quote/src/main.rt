// Reads shapes from standard input, one a line, and prints for each the least number of cells that will do.
#![tactic(auto)]

use quotes::answer_line;
use std::io;
use std::io::{BufRead, BufReader};

fn main(rt: HostRuntime) -> io::Result<()> {
    let heap = rt.alloc();
    // The numbers do not run out: no input has as many lines.
    let lines = BufReader::new(heap, rt.stdin())?.split(heap, b'\n');
    for (number, line) in (1..u64::MAX).zip(lines) {
        rt.print(answer_line(heap, number, line?.as_slice())?)?;
    }
    Ok(())
}
