//! Replays a session of calls to a pressing from standard input, and prints the answers.

#![tactic(auto)]

use replaying::replay;
use std::io;

fn main(rt: HostRuntime) -> anyhow::Result<()> {
    let heap = rt.alloc();
    let text = io::read_to_string(heap, rt.stdin())?;
    let out = replay(heap, text.as_str())?;
    print!(rt; "{out}")?;
    Ok(())
}
