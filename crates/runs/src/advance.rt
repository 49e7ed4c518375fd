// One step of an open run in its direction.
ghost use Rattle.runs.specs.Working.{Suited, Worked};

use crate::journey::Journey;
use crate::work::{ask, send};
use boards::Board;
use histories::{Answer, Direction, Step};

impl Journey {
    // What it asks is said of a run and of a board that the run does not hold.
    // Does the step at the place, or undoes the last one done, unless a poll says that the rail is not there yet.
    pub(crate) fn work<B: Board>(&mut self, board: &mut B) -> Answer
        requires { Suited B.Board self.old board.old }
        ensures { Worked B.Board self.old board.old result self.new board.new }
    {
        let Some(step) = self.current() else {
            return Answer::Arrived;
        };
        match (self.direction, step) {
            (Direction::Forward, Step::Start { rail, target }) => {
                send(board, rail, target);
                self.go_on(step);
                Answer::Moved
            }
            (Direction::Forward, Step::Wait { rail }) => {
                if !ask(board, rail) {
                    return Answer::Waiting;
                }
                self.go_on(step);
                Answer::Moved
            }
            (Direction::Backward, Step::Wait { rail }) => {
                send(board, rail, self.before(rail).origin());
                self.go_back(step);
                Answer::Moved
            }
            (Direction::Backward, Step::Start { rail, .. }) => {
                if !ask(board, rail) {
                    return Answer::Waiting;
                }
                self.go_back(step);
                Answer::Moved
            }
        }
    }
}
