// Reads a chunk file from standard input and lists its summaries.
#![tactic(auto)]

use listings::list_input;
use std::io;
use std::io::Read;

// More is not looked at.
const MOST_BYTES: u64 = 32_768;

fn main(rt: HostRuntime) -> io::Result<()> {
    let heap = rt.alloc();
    let mut input = Vec::new(heap);
    rt.stdin().take(MOST_BYTES).read_to_end(&mut input)?;
    rt.print(list_input(heap, input.as_slice())?)
}
