// Prints the sheet of the plate on standard input: a line for each class with its bound, and whether the plan may start.
#![tactic(auto)]

use printed::print_sheet;
use std::io::{Read, Write};

fn run(rt: &HostRuntime) -> anyhow::Result<()> {
    let mut plate = Vec::new(rt.alloc());
    rt.stdin().read_to_end(&mut plate)?;
    let mut scratch = [0; 256];
    let mut text = [0; 4830];
    let n = print_sheet(plate.as_slice(), &mut scratch, &mut text)?;
    rt.stdout().write_all(&text[..n])?;
    Ok(())
}

fn main(rt: HostRuntime) -> anyhow::Result<()> {
    run(&rt)
}
