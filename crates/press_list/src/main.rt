//! Reads the list of a works from standard input, presses it, and prints the report on it.

#![tactic(auto)]

use reporting::report::report;
use std::io;

fn main(rt: HostRuntime) -> anyhow::Result<()> {
    let heap = rt.alloc();
    let text = io::read_to_string(heap, rt.stdin())?;
    let out = report(heap, text.as_str())?;
    print!(rt; "{out}")?;
    Ok(())
}
