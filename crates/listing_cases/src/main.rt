// Runs many inputs, each between percent signs after its name, and prints what is written out for each.
#![tactic(auto)]

use faults::Fault;
use listings::report_on;
use sheets::read_demands;
use std::io::{Read, Write};

// More cases than there are; what follows so many is not shown.
const MOST: usize = 1000;

fn show(rt: &HostRuntime, name: &[u8], input: &[u8]) -> anyhow::Result<()> {
    rt.stdout().write_all(name)?;
    println!(rt; "")?;
    let report = report_on(rt.alloc(), input)?;
    print!(rt; "{report}")?;
    Ok(())
}

// A sheet that is too long by itself cannot stand in an input that is short enough, so it is read alone.
fn show_long_sheet(rt: &HostRuntime, length: usize) -> anyhow::Result<()> {
    let bytes = vec![in rt.alloc(); b'7'; length]?;
    match read_demands(rt.alloc(), &bytes) {
        Ok(_) => println!(rt; "{length} bytes: read")?,
        Err(fault) => {
            let refusal = fault.refusal();
            println!(rt; "{length} bytes: {refusal}")?;
        }
    }
    Ok(())
}

fn main(rt: HostRuntime) -> anyhow::Result<()> {
    let mut all = Vec::new(rt.alloc());
    rt.stdin().read_to_end(&mut all)?;
    let parts: Vec<&[u8]> = all
        .split(|b| *b == b'%')
        .take(2 * MOST)
        .collect(rt.alloc())?;
    for case in parts.chunks_exact(2) {
        show(&rt, case[0], case[1])?;
    }
    show_long_sheet(&rt, 65535)?;
    show_long_sheet(&rt, 65536)?;
    Ok(())
}
