// Lists every input named in `names` and compares what comes out with what it should be.
#![tactic(auto)]

use listings::list_input;
use std::fs;

fn is_listed(rt: &HostRuntime, name: &str) -> anyhow::Result<bool> {
    let heap = rt.alloc();
    let input = fs::read(rt, format!(in heap; "{name}.bin")?)?;
    let wanted = fs::read(rt, format!(in heap; "{name}.out")?)?;
    let text = list_input(heap, input.as_slice())?;
    Ok(text.as_bytes() == wanted.as_slice())
}

fn main(rt: HostRuntime) -> anyhow::Result<()> {
    let mut right: u64 = 0;
    let mut wrong: u64 = 0;
    let names = fs::read_to_string(&rt, "names")?;
    for name in names.as_str().lines() {
        if is_listed(&rt, name)? {
            right = right.saturating_add(1);
        } else {
            wrong = wrong.saturating_add(1);
            println!(rt; "differs: {name}")?;
        }
    }
    println!(rt; "{right} listed as they should be, {wrong} not")?;
    Ok(())
}
