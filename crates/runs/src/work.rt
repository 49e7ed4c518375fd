// The one start or poll that a step makes, on a board that grants it.
ghost use Rattle.std.specs.Prelude.{◌<◌, ◌≤◌};
ghost use Rattle.runs.specs.Working.{Sent, Asked};

use boards::Board;

// Starts a rail towards a goal that the board takes.
pub(crate) fn send<B: Board>(board: &mut B, rail: u8, goal: u16)
    requires rail { rail < B.Board.rails board.old }
    requires low { goal ≤ B.Board.CEILING }
    ensures { Sent B.Board board.old rail goal board.new }
{
    let Ok(()) = board.start(rail, goal) else {
        unreachable()
    };
}

// Asks whether a rail of the board has arrived.
pub(crate) fn ask<B: Board>(board: &mut B, rail: u8) -> bool
    requires { rail < B.Board.rails board.old }
    ensures { Asked B.Board board.old rail result board.new }
{
    let Ok(arrived) = board.poll(rail) else {
        unreachable()
    };
    arrived
}
