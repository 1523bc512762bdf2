#![tactic(auto)]

// Lists the entries of a catalogue that is read from standard input.
mod listing;
mod statement;

use std::io::Read;

fn main(rt: HostRuntime) -> anyhow::Result<()> {
    let mut bytes = Vec::new(rt.alloc());
    rt.stdin().read_to_end(&mut bytes)?;
    let text = listing::listing(rt.alloc(), bytes.as_slice())?;
    rt.print(text.as_str())?;
    Ok(())
}
