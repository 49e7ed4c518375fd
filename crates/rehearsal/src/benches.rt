// The boards that are rehearsed on: a ramp bench and a relay board, each under a steady layer.
use anyhow::anyhow;
use boards::{Board, BoardFault, RampBench, RelayBoard};
use layers::Steady;
use scripts::Proposal;

// By how much a poll of the ramp bench moves a rail, in mV.
const RATE: u16 = 1500;

// How many polls of the relay board find a rail on its way.
const DELAY: u8 = 2;

// How many yes answers the layer wants running.
const ANSWERS: u8 = 3;

// A board that is made for each run.
pub(crate) trait Made {
    // One at rest at the first mix.
    fn made(proposal: &Proposal) -> Result<Self, BoardFault>;
}

fn steady<B: Board + Drop>(below: B) -> Result<Steady<B>, BoardFault> {
    Steady::new(below, ANSWERS).map_err(|(_, fault)| fault)
}

impl Made for Steady<RampBench> {
    fn made(proposal: &Proposal) -> Result<Steady<RampBench>, BoardFault> {
        let bench = RampBench::new(proposal.platform.rails(), &[RATE; 24], proposal.first)?;
        steady(bench)
    }
}

impl Made for Steady<RelayBoard> {
    fn made(proposal: &Proposal) -> Result<Steady<RelayBoard>, BoardFault> {
        let board = RelayBoard::new(proposal.platform.rails(), &[DELAY; 24], proposal.first)?;
        steady(board)
    }
}

// A board for one run; where it is refused, in words.
pub(crate) fn fresh<B: Made>(proposal: &Proposal) -> anyhow::Result<B> {
    match B::made(proposal) {
        Ok(board) => Ok(board),
        Err(fault) => {
            let number = fault.number();
            Err(anyhow!("refused with {number}: a first value is above what the board takes"))
        }
    }
}
