// Rehearsals on a fresh board.
use crate::telling::ToldOpening;
use anyhow::{Context, anyhow};
use boards::Board;
use histories::{Answer, Call, Outcome};
use promises::Entry;
use rehearsals::rehearse;
use runs::Run;
use scripts::Proposal;
use std::alloc::{AllocError, Global};

// No rehearsal has more advances than these after its first calls.
const MOST: usize = 4096;

// What is noted of each call on a run that is opened on a fresh board; a refused opening is the error.
pub(crate) fn log_of<B: Board>(
    heap: Global,
    proposal: &Proposal,
    board: &mut B,
    calls: &[Call],
) -> anyhow::Result<Vec<Entry>> {
    let blank = Entry {
        outcome: Outcome::Granted,
        values: [0; 24],
    };
    let mut log = vec![in heap; blank; calls.len()]?;
    let mut run = Run::empty();
    match rehearse(&mut run, proposal, board, calls, &mut log) {
        Ok(made) => log.truncate(made),
        Err(fault) => {
            let told = ToldOpening { fault, proposal };
            return Err(anyhow!("{told}"));
        }
    }
    Ok(log)
}

// The first calls, then advances up to the one that finds the run at its end, and a close; how many is found on a board of its own.
pub(crate) fn calls_to_end<B: Board>(
    heap: Global,
    proposal: &Proposal,
    board: &mut B,
    first: &[Call],
) -> anyhow::Result<Vec<Call>> {
    let mut calls = Vec::new(heap);
    calls.extend_from_slice(first)?;
    calls.resize(first.len() + MOST, Call::Advance)?;
    let log = log_of(heap, proposal, board, &calls)?;
    let arrived = log.iter().position(|entry| entry.outcome == Outcome::Answered(Answer::Arrived));
    calls.truncate(arrived.context("the run needs more than 4096 advances")? + 1);
    calls.push(Call::Close)?;
    Ok(calls)
}

// So many advances, and a turn.
pub(crate) fn part_and_turn(heap: Global, advances: usize) -> Result<Vec<Call>, AllocError> {
    let mut calls = vec![in heap; Call::Advance; advances]?;
    calls.push(Call::Turn)?;
    Ok(calls)
}
