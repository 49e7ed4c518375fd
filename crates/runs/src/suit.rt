// Whether a board suits a run: its count, and its ceiling against every value of the run.
ghost use Rattle.std.specs.Prelude.{ℕ, ◌<◌, ◌≤◌, Decides};
ghost use Rattle.std.specs.List.{AllByRecursion};
ghost use Rattle.platform.specs.Units.{value_of};
ghost use Rattle.openings.specs.Openings.{Low};
ghost use Rattle.runs.specs.Working.{script_of, Suited};

use crate::journey::Journey;
use boards::Board;
use histories::Step;

fn step_low(step: Step, top: u16) -> bool
    ensures { Decides result (Low top step) }
{
    match step {
        Step::Start { target, .. } => target <= top,
        Step::Wait { .. } => true,
    }
}

impl Journey {
    // Is none of the first values of the rails above the top?
    fn values_low(&self, top: u16) -> bool
        ensures { Decides result ((i : ℕ) → i < self.now.rails → value_of self.now.first.values i ≤ top) }
    {
        let values = &self.first.values[..self.rails as usize];
        values.iter().all(|value| *value <= top)
    }

    // Is no target of the script above the top?
    fn targets_low(&self, top: u16) -> bool
        ensures { Decides result (AllByRecursion (Low top) (script_of self.now)) }
    {
        self.script().iter().all(|step| step_low(*step, top))
    }

    // Can the run work this board? It has these rails, and a ceiling that no first value and no target is above.
    pub(crate) fn suited<B: Board>(&self, board: &B) -> bool
        ensures { Decides result (Suited B.Board self.now board.now) }
    {
        board.count() == self.rails && self.values_low(B::CEILING) && self.targets_low(B::CEILING)
    }
}
