// Opening a run on a board.
ghost use Rattle.std.specs.Prelude.{◌≡◌, Decides};
ghost use Rattle.platform.specs.Making.{model_of};
ghost use Rattle.openings.specs.Openings.{Standing};
ghost use Rattle.runs.specs.Working.{meaning, plan_of};
ghost use Rattle.runs.specs.Opening.{Opens};

use crate::fault::OpenFault;
use crate::journey::Journey;
use crate::run::Run;
use boards::Board;
use scripts::Proposal;

impl Journey {
    // Is every rail of the board at its first value and not pending?
    fn stands_on<B: Board>(&self, board: &B) -> bool
        requires { B.Board.rails board.now ≡ self.now.rails }
        ensures { Decides result (Standing (plan_of B.Board self.now board.now) (meaning B.Board board.now)) }
    {
        let firsts = &self.first.values[..self.rails as usize];
        for (rail, first) in firsts.iter().enumerate() {
            if board.look(rail as u8) != Ok((*first, false)) {
                return false;
            }
        }
        true
    }
}

impl Run {
    // Fills an empty run with a script from a first mix, for a board that stands at that mix.
    pub fn open<B: Board>(&mut self, proposal: &Proposal, board: &B) -> Result<(), OpenFault>
        ensures { Opens B.Board (model_of proposal.now.platform.now) self.old proposal.now.first.now proposal.now.script.now board.now result self.new }
    {
        if self.is_open() {
            return Err(OpenFault::NotEmpty);
        }
        proposal.check()?;
        let journey = Journey::begun(proposal);
        if !journey.suited(board) || !journey.stands_on(board) {
            return Err(OpenFault::Board);
        }
        self.journey = Some(journey);
        Ok(())
    }
}
