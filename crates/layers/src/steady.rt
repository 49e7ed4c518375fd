// The steady layer: over any board, it says yes only after several yes answers running.
ghost use Rattle.std.specs.Prelude.{◌≡◌, ◌+◌, ◌-◌, ◌<◌, if◌then◌else◌, MatchResult};
ghost use Rattle.boards.specs.Faults.{Refused};
ghost use Rattle.boards.specs.Making.{Within};
ghost use Rattle.layers.specs.Steady.{pendings, credits, run_after, Built, SteadyStarted, SteadyPolled};
ghost use Rattle.std.proofs.Common.{rules};

use boards::{Board, BoardFault};
use std::array;

// `need` answers have to run; `run` has how many have, of each rail. Fixed memory: as any board, it is worked without a heap.
#[derive(Drop)]
pub struct Steady<B> {
    below: B,
    need: u8,
    run: [u8; 24],
}

impl<B: Board> Steady<B> {
    // A layer that wants 1 to 16 yes answers running; with a refusal the board comes back.
    pub fn new(below: B, need: u8) -> Result<Steady<B>, (B, BoardFault)>
        ensures { let in_range = Within 1 16 need in MatchResult result (λ s. in_range × Built B.Board.rails B.Board.pending below need s) (λ e. (e.0 ≡ below) × Refused in_range e.1) }
    {
        if need == 0 || need > 16 {
            return Err((below, BoardFault::OutOfRange));
        }
        let count = below.count();
        let run = array::from_fn(|rail| first_run(&below, count, need, rail as u8));
        Ok(Steady { below, need, run })
    }
}

// The answers that count as run on a rail when a layer is built: none where it is pending below, all on any other.
// Only the `count` rails that the board below has are looked at.
fn first_run<B: Board>(below: &B, count: u8, need: u8, rail: u8) -> u8
    requires { count ≡ B.Board.rails below.now }
    ensures { rail < B.Board.rails below.now → result ≡ (if B.Board.pending below.now rail then 0 else need) }
{
    if rail >= count {
        return need;
    }
    match below.look(rail) {
        Ok((_, true)) => 0,
        _ => need,
    }
}

// The yes answers that run after one more answer.
fn counted(yes: bool, need: u8, run: u8) -> u8
    ensures { result ≡ run_after need yes run }
{
    if yes {
        run.saturating_add(1).min(need)
    } else {
        0
    }
}

impl<B: Board> Board for Steady<B> {
    const CEILING: u16 = B::CEILING;

    ghost CEILING = { B.Board.CEILING };

    ghost rails = { λ s. B.Board.rails s.below };

    ghost patience = { λ s. B.Board.patience s.below + (s.need - 1) };

    ghost value = { λ s. B.Board.value s.below };

    ghost target = { λ s. B.Board.target s.below };

    ghost pending = { pendings B.Board.pending };

    ghost credit = { credits B.Board.pending B.Board.credit };

    ghost starts = { SteadyStarted B.Board.starts };

    ghost polls = { SteadyPolled B.Board.polls };

    ghost counted = { Prim.search rules };

    ghost stands = { Prim.search rules };

    fn count(&self) -> u8 {
        self.below.count()
    }

    fn start(&mut self, rail: u8, goal: u16) -> Result<(), BoardFault> {
        self.below.start(rail, goal)?;
        self.run[rail as usize] = 0;
        Ok(())
    }

    fn poll(&mut self, rail: u8) -> Result<bool, BoardFault> {
        let yes = self.below.poll(rail)?;
        let run = counted(yes, self.need, self.run[rail as usize]);
        self.run[rail as usize] = run;
        Ok(yes && run == self.need)
    }

    fn look(&self, rail: u8) -> Result<(u16, bool), BoardFault> {
        let (value, pending) = self.below.look(rail)?;
        Ok((value, pending || self.run[rail as usize] < self.need))
    }
}
