// One call on a run, by its name, and what is noted of it.
ghost use Rattle.std.specs.Prelude.{◌≡◌, ◌<◌, List};
ghost use Rattle.runs.specs.Working.{Ran};
ghost use Rattle.promises.specs.Notes.{Shows};

use boards::Board;
use histories::{Call, Outcome};
use promises::Entry;
use runs::Run;
use std::array;

// Makes a call and tells its outcome.
pub fn make_call<B: Board>(run: &mut Run, board: &mut B, call: Call) -> Outcome
    ensures { (moments : List B) × Ran B.Board run.old board.old call result moments run.new board.new }
{
    match call {
        Call::Advance => run
            .advance(board)
            .map_or_else(Outcome::Refused, Outcome::Answered),
        Call::Turn => run
            .turn(board)
            .map_or_else(Outcome::Refused, |()| Outcome::Granted),
        Call::Close => run
            .close()
            .map_or_else(Outcome::Refused, |()| Outcome::Granted),
    }
}

// A rail's value on a board, 0 past the last of its `count` rails, where nothing is looked at.
fn value_on<B: Board>(board: &B, count: u8, rail: usize) -> u16
    requires room { rail < 24 }
    requires counted { count ≡ B.Board.rails board.now }
    ensures { rail < B.Board.rails board.now → result ≡ B.Board.value board.now rail }
{
    if rail >= count as usize {
        return 0;
    }
    board.look(rail as u8).map_or(0, |(value, _)| value)
}

// Notes an outcome with the values that the board has now.
pub(crate) fn note<B: Board>(board: &B, outcome: Outcome) -> Entry
    ensures outcome { result.outcome ≡ outcome }
    ensures shows { Shows B.Board result board.now }
{
    let count = board.count();
    let values = array::from_fn(|rail| value_on(board, count, rail));
    Entry { outcome, values }
}
