//! The season of a works: reads its list from standard input and prints the report on it.

#![tactic(auto)]

use std::io;
use worklist::report::report;

fn main(rt: HostRuntime) -> anyhow::Result<()> {
    let heap = rt.alloc();
    let text = io::read_to_string(heap, rt.stdin())?;
    let out = report(heap, text.as_str())?;
    print!(rt; "{out}")?;
    Ok(())
}
