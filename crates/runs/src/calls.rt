// The calls on a run: advance, turn and close.
ghost use Rattle.std.specs.Prelude.{List, Ok, Err, MatchResult};
ghost use Rattle.histories.specs.declared.run.Call.TheVariants.{Advance, Turn};
ghost use Rattle.runs.specs.Faults.{answered, granted};
ghost use Rattle.runs.specs.Working.{Finds, Ran, Closes};

use crate::journey::Journey;
use crate::run::Run;
use boards::Board;
use histories::{Answer, RunFault};

impl Run {
    // What an open run holds, if the board suits it. Working it then goes on in place: a journey is large to copy.
    fn journey_on<B: Board>(&self, board: &B) -> Result<&Journey, RunFault>
        ensures { MatchResult result (λ j. Finds B.Board self.now board.now (Ok j.now)) (λ e. Finds B.Board self.now board.now (Err e)) }
    {
        let journey = self.journey.as_ref().ok_or(RunFault::NotOpen)?;
        if !journey.suited(board) {
            return Err(RunFault::Unsuited);
        }
        Ok(journey)
    }

    // One step in the run's direction: the place has moved by one, the rail is still on its way, or the run is at its end.
    pub fn advance<B: Board>(&mut self, board: &mut B) -> Result<Answer, RunFault>
        ensures { (moments : List B) × Ran B.Board self.old board.old Advance (answered result) moments self.new board.new }
    {
        self.journey_on(board)?;
        let Some(journey) = self.journey.as_mut() else {
            unreachable()
        };
        let answer = journey.work(board);
        Ok(answer)
    }

    // Turns the run round, and sends every moving rail to its other end.
    pub fn turn<B: Board>(&mut self, board: &mut B) -> Result<(), RunFault>
        ensures { (moments : List B) × Ran B.Board self.old board.old Turn (granted result) moments self.new board.new }
    {
        self.journey_on(board)?;
        let Some(journey) = self.journey.as_mut() else {
            unreachable()
        };
        journey.turn_round(board);
        Ok(())
    }

    // Empties a run that is at either end of its script.
    pub fn close(&mut self) -> Result<(), RunFault>
        ensures { Closes self.old result self.new }
    {
        let journey = self.journey.as_ref().ok_or(RunFault::NotOpen)?;
        if journey.place != 0 && journey.place != journey.script().len() {
            return Err(RunFault::Between);
        }
        self.journey = None;
        Ok(())
    }
}
