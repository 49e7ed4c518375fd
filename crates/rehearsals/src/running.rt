// Opening a run and making a list of calls on it.
ghost use Rattle.platform.specs.Making.{model_of};
ghost use Rattle.runs.specs.Opening.{IsOpen};
ghost use Rattle.promises.specs.Chains.{Whole, Noted};
ghost use Rattle.promises.specs.Promise.{Rehearses};

use crate::calling::{make_call, note};
use boards::Board;
use histories::Call;
use promises::Entry;
use runs::{OpenFault, Run};
use scripts::Proposal;

// Makes the calls on an open run, up to the first granted close, as far as the log has room.
// Fixed memory: the log is the caller's, and a run is worked without a heap.
fn make_calls<B: Board>(run: &mut Run, board: &mut B, calls: &[Call], log: &mut [Entry]) -> usize
    requires { IsOpen run.old }
    ensures whole { Whole calls.now log.old result run.new }
    ensures noted { Noted B.Board run.old board.old calls.now log.old log.new result run.new board.new }
{
    let room = calls.len().min(log.len());
    for (i, call) in calls[..room].iter().enumerate() {
        let outcome = make_call(run, board, *call);
        log[i] = note(board, outcome);
        if !run.is_open() {
            return i + 1;
        }
    }
    room
}

// Opens an empty run and makes the calls on it. The answer is how many were made; the log has what came of each.
pub fn rehearse<B: Board>(
    run: &mut Run,
    proposal: &Proposal,
    board: &mut B,
    calls: &[Call],
    log: &mut [Entry],
) -> Result<usize, OpenFault>
    ensures { Rehearses B.Board (model_of proposal.now.platform.now) run.old proposal.now.first.now proposal.now.script.now board.old calls.now log.old result run.new board.new log.new }
{
    run.open(proposal, board)?;
    Ok(make_calls(run, board, calls, log))
}
