// The other direction, with every moving rail sent to its end there.
ghost use Rattle.std.specs.Prelude.{◌≡◌, List};
ghost use Rattle.openings.specs.Plans.{rails_at};
ghost use Rattle.openings.specs.Runs.{Restarted, other, towards};
ghost use Rattle.runs.specs.Working.{boards, plan_of, Suited, Turned};

use crate::journey::Journey;
use crate::work::send;
use boards::Board;
use histories::{Direction, Rail};

fn reversed(direction: Direction) -> Direction
    ensures { result ≡ other direction }
{
    match direction {
        Direction::Forward => Direction::Backward,
        Direction::Backward => Direction::Forward,
    }
}

// The end of a move that lies in a direction.
fn end_towards(direction: Direction, origin: u16, target: u16) -> u16
    ensures { result ≡ towards direction origin target }
{
    match direction {
        Direction::Forward => target,
        Direction::Backward => origin,
    }
}

impl Journey {
    // Starts each moving rail towards its end in a direction, in rising order.
    fn restart<B: Board>(&self, board: &mut B, direction: Direction)
        requires { Suited B.Board self.now board.old }
        ensures { (moments : List B) × Restarted (boards B.Board) (rails_at (plan_of B.Board self.now board.old) self.now.place) direction self.now.rails board.old moments board.new }
    {
        let records = &self.records[..self.rails as usize];
        for (rail, record) in records.iter().enumerate() {
            if let Rail::Moving { origin, target } = *record {
                send(board, rail as u8, end_towards(direction, origin, target));
            }
        }
    }

    pub(crate) fn turn_round<B: Board>(&mut self, board: &mut B)
        requires { Suited B.Board self.old board.old }
        ensures { Turned B.Board self.old board.old self.new board.new }
    {
        let direction = reversed(self.direction);
        self.restart(board, direction);
        self.direction = direction;
    }
}
