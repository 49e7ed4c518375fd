// From the input's bytes to the text that is written.
use crate::benches::{Made, fresh};
use crate::input::{Input, cut};
use crate::mixes::{read_both, read_first};
use crate::steps::{read_script, script_of};
use crate::telling::{ToldOrder, ToldPlatform};
use crate::way::{calls_to_end, log_of, part_and_turn};
use crate::writing::{write_calls, write_order, write_script};
use anyhow::anyhow;
use boards::{Board, RampBench, RelayBoard};
use histories::{Call, Step};
use layers::Steady;
use ordering::Change;
use platform::{Inquiry, Platform, read_inquiry};
use scripts::Proposal;
use std::alloc::Global;

// A byte for each set of 16 rails.
const SETS: usize = 65536;

// The platform of the sheets.
fn platform_of(heap: Global, input: &Input) -> anyhow::Result<Platform> {
    match read_inquiry(heap, input.sheets) {
        Ok(Inquiry { platform, .. }) => Ok(platform),
        Err(fault) => {
            let told = ToldPlatform(fault);
            Err(anyhow!("{told}"))
        }
    }
}

// The script of a safe order from the first mix to the last; the order and the script are written.
fn ordered(heap: Global, out: &mut String, change: &Change) -> anyhow::Result<Vec<Step>> {
    let mut table = vec![in heap; 0u8; SETS]?;
    match change.order(&mut table) {
        Ok(order) => {
            writeln!(out, "The rails move in this order:")?;
            write_order(out, change, &order)?;
            let script = script_of(heap, &order, change.last)?;
            writeln!(out, "\nThe script:")?;
            write_script(out, &script)?;
            writeln!(out, "")?;
            Ok(script)
        }
        Err(fault) => {
            let told = ToldOrder(fault);
            Err(anyhow!("{told}"))
        }
    }
}

// Makes the calls on a run on a fresh board of a make, and writes what came of each.
fn play<B: Board + Made + Drop>(
    heap: Global,
    out: &mut String,
    proposal: &Proposal,
    calls: &[Call],
) -> anyhow::Result<()> {
    let mut board = fresh::<B>(proposal)?;
    let log = log_of(heap, proposal, &mut board, calls)?;
    write_calls(out, proposal.platform, calls, &log)?;
    Ok(())
}

// What opening says on boards of a make; then a run to the last mix, and one that turns half way and comes back.
fn rehearse_make<B: Board + Made + Drop>(
    heap: Global,
    out: &mut String,
    name: &str,
    proposal: &Proposal,
) -> anyhow::Result<()> {
    let mut board = fresh::<B>(proposal)?;
    let there = calls_to_end(heap, proposal, &mut board, &[])?;
    writeln!(out, "{name}: the script is granted")?;
    writeln!(out, "\n{name}, to the last mix:")?;
    play::<B>(heap, out, proposal, &there)?;
    let half = part_and_turn(heap, there.len().saturating_sub(1) / 2)?;
    let mut board = fresh::<B>(proposal)?;
    let back = calls_to_end(heap, proposal, &mut board, &half)?;
    writeln!(out, "\n{name}, half way and back:")?;
    play::<B>(heap, out, proposal, &back)
}

// The same; a refusal is written in one line, and the answer is whether there was none.
fn try_make<B: Board + Made + Drop>(
    heap: Global,
    out: &mut String,
    name: &str,
    proposal: &Proposal,
) -> anyhow::Result<bool> {
    match rehearse_make::<B>(heap, out, name, proposal) {
        Ok(()) => Ok(true),
        Err(error) => {
            writeln!(out, "{name}: {error}")?;
            Ok(false)
        }
    }
}

fn rehearse_script(heap: Global, out: &mut String, proposal: &Proposal) -> anyhow::Result<bool> {
    let ramp = try_make::<Steady<RampBench>>(heap, out, "ramp bench", proposal)?;
    writeln!(out, "")?;
    let relay = try_make::<Steady<RelayBoard>>(heap, out, "relay board", proposal)?;
    Ok(ramp && relay)
}

// Writes all that comes of an input; the answer is whether both boards granted the script.
pub(crate) fn rehearse_input(heap: Global, input: &[u8], out: &mut String) -> anyhow::Result<bool> {
    let input = cut(input)?;
    let platform = platform_of(heap, &input)?;
    match input.script {
        Some(script) => {
            let first = read_first(heap, input.mixes, &platform)?;
            let script = read_script(heap, script)?;
            let proposal = Proposal {
                platform: &platform,
                first: &first,
                script: &script,
            };
            rehearse_script(heap, out, &proposal)
        }
        None => {
            let (first, last) = read_both(heap, input.mixes, &platform)?;
            let change = Change {
                platform: &platform,
                first: &first,
                last: &last,
            };
            let script = ordered(heap, out, &change)?;
            let proposal = Proposal {
                platform: &platform,
                first: &first,
                script: &script,
            };
            rehearse_script(heap, out, &proposal)
        }
    }
}
