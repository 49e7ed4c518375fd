// Reads the four sheets from standard input and writes their listing, or the listing of a refusal, to standard output.
#![tactic(auto)]

use anyhow::anyhow;
use listings::{Report, report_on};
use std::io;
use std::io::Read;

// One more byte than an input may have: what is past that makes no difference.
const ENOUGH: u64 = 65536;

// The input's bytes, as far as they matter.
fn read_input(rt: &HostRuntime) -> io::Result<Vec<u8>> {
    let mut input = Vec::new(rt.alloc());
    rt.stdin().take(ENOUGH).read_to_end(&mut input)?;
    Ok(input)
}

fn main(rt: HostRuntime) -> anyhow::Result<()> {
    let input = read_input(&rt)?;
    match report_on(rt.alloc(), &input) {
        Ok(report) => {
            print!(rt; "{report}")?;
            match report {
                Report::Listing(_) => Ok(()),
                Report::Refusal(_) => Err(anyhow!("refused")),
            }
        }
        Err(_) => {
            // No memory for the text of the refusal.
            println!(rt; "refusal,sheet,line\n0,0,0")?;
            Err(anyhow!("out of memory"))
        }
    }
}
