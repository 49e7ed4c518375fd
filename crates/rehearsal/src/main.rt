// Rehearses a change of a board's rails: reads the four sheets, a first mix and a last mix or a script, and writes the order of
// the rails, what opening says, and every call on two benches with its answer and the rails' values.
//
// After the four sheets and one more empty line comes a mix sheet with a line for each rail in order, in mV. With a last mix the
// program looks for an order and makes the script of it:
//
//     rail,first,last
//     0,0,11400
//     1,0,1650
//
// Without one, an empty line and a script follow; its lines are the steps, and a wait has no target:
//
//     rail,first
//     0,0
//     1,0
//
//     step,rail,target
//     start,0,11400
//     wait,0,
#![tactic(auto)]

mod benches;
mod input;
mod mixes;
mod rehearsing;
mod steps;
mod table;
mod telling;
mod way;
mod writing;

use crate::rehearsing::rehearse_input;
use anyhow::anyhow;
use std::io;
use std::io::Read;

// One more byte than an input may have: what is past that makes no difference.
const ENOUGH: u64 = 65536;

// The input's bytes, as far as they matter.
fn read_input(rt: &HostRuntime) -> io::Result<Vec<u8>> {
    let mut input = Vec::new(rt.alloc());
    rt.stdin().take(ENOUGH).read_to_end(&mut input)?;
    Ok(input)
}

fn main(rt: HostRuntime) -> anyhow::Result<()> {
    let input = read_input(&rt)?;
    let mut out = String::new(rt.alloc());
    let end = rehearse_input(rt.alloc(), &input, &mut out);
    print!(rt; "{out}")?;
    match end {
        Ok(true) => Ok(()),
        Ok(false) => Err(anyhow!("refused")),
        Err(error) => {
            println!(rt; "{error}")?;
            Err(anyhow!("refused"))
        }
    }
}
