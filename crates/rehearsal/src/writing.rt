// The tables that are written: an order, a script, and the calls of a rehearsal.
use histories::{Answer, Call, Outcome, Step};
use ordering::{Change, Order};
use platform::Platform;
use promises::Entry;
use std::fmt;

// Each rail in the order in which they move, with where it goes from and to.
pub(crate) fn write_order(out: &mut String, change: &Change, order: &Order) -> fmt::Result {
    writeln!(out, "rail,first,last")?;
    for rail in order.rails() {
        let first = change
            .first
            .values
            .get(*rail as usize)
            .copied()
            .unwrap_or(0);
        let last = change.last.values.get(*rail as usize).copied().unwrap_or(0);
        writeln!(out, "{rail},{first},{last}")?;
    }
    Ok(())
}

// The steps as a script sheet has them.
pub(crate) fn write_script(out: &mut String, script: &[Step]) -> fmt::Result {
    writeln!(out, "step,rail,target")?;
    for step in script {
        match *step {
            Step::Start { rail, target } => writeln!(out, "start,{rail},{target}")?,
            Step::Wait { rail } => writeln!(out, "wait,{rail},")?,
        }
    }
    Ok(())
}

fn call_word(call: Call) -> &'static str {
    match call {
        Call::Advance => "advance",
        Call::Turn => "turn",
        Call::Close => "close",
    }
}

fn write_outcome(out: &mut String, outcome: Outcome) -> fmt::Result {
    match outcome {
        Outcome::Answered(Answer::Moved) => write!(out, "moved")?,
        Outcome::Answered(Answer::Waiting) => write!(out, "waiting")?,
        Outcome::Answered(Answer::Arrived) => write!(out, "arrived")?,
        Outcome::Granted => write!(out, "granted")?,
        Outcome::Refused(fault) => {
            let number = fault.number();
            write!(out, "refused with {number}")?;
        }
    }
    Ok(())
}

fn write_names(out: &mut String, platform: &Platform) -> fmt::Result {
    write!(out, "call,answer")?;
    for rail in 0..platform.rails() {
        write!(out, ",rail {rail}")?;
    }
    writeln!(out, "")?;
    Ok(())
}

fn write_call(out: &mut String, platform: &Platform, call: Call, entry: &Entry) -> fmt::Result {
    let word = call_word(call);
    write!(out, "{word},")?;
    write_outcome(out, entry.outcome)?;
    for value in &entry.values[..platform.rails() as usize] {
        write!(out, ",{value}")?;
    }
    writeln!(out, "")?;
    Ok(())
}

// Each call with its answer and the rails' values after it.
pub(crate) fn write_calls(
    out: &mut String,
    platform: &Platform,
    calls: &[Call],
    log: &[Entry],
) -> fmt::Result {
    write_names(out, platform)?;
    for (call, entry) in calls.iter().zip(log) {
        write_call(out, platform, *call, entry)?;
    }
    Ok(())
}
