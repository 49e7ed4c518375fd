// The laws of the makes, as theorems.
ghost use Rattle.makes.specs.Laws.{RampArrives, RelayWaits, SteadyRuns};
ghost use Rattle.makes.specs.Meant.{RampMeans, RelayMeans};

use boards::{Board, RampBench, RelayBoard};

// What a start and a poll of them do is what the definitions of the make say.
pub fn makes_mean()
    ensures ramp { RampMeans ⟦<RampBench as Board>⟧ }
    ensures relay { RelayMeans ⟦<RelayBoard as Board>⟧ }
{}

// The ramp bench and the relay board.
pub fn makes_stand()
    ensures ramp { RampArrives }
    ensures relay { RelayWaits }
{}

// The steady layer, over any board.
pub fn layers_stand<B: Board>()
    ensures { SteadyRuns B.Board.starts B.Board.polls }
{}
