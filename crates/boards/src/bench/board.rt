// A bench as a board.
ghost use Rattle.std.specs.Prelude.{◌≡◌, ◌≢◌, ℕ, ◌<◌, MatchResult, false};
ghost use Rattle.boards.specs.Faults.{Refused};
ghost use Rattle.boards.specs.Benches.{row, of_each, BenchStarted, BenchPolled};
ghost use Rattle.boards.specs.Rails.{RailPassed};
ghost use Rattle.std.proofs.Common.{rules};

use crate::bench::Bench;
use crate::fault::BoardFault;
use crate::meaning::Board;
use crate::rail::Rail;

// A rail passes a poll, unless it is the one that is polled.
fn pass_other<R: Rail>(rail: &mut R, polled: bool)
    ensures own { polled ≡ false → R.passed rail.old rail.new }
    ensures meaning { polled ≡ false → RailPassed (R.meaning rail.old) (R.meaning rail.new) }
{
    if !polled {
        rail.pass();
    }
}

impl<R: Rail> Bench<R> {
    // Where a rail stands in the row.
    fn place(&self, rail: u8) -> Result<usize, BoardFault>
        ensures { let in_range = rail < self.now.count in MatchResult result (λ at. in_range × (at ≡ rail)) (Refused in_range) }
    {
        if rail < self.count {
            Ok(rail as usize)
        } else {
            Err(BoardFault::OutOfRange)
        }
    }

    // Every rail of the bench but the one at `at` passes a poll.
    fn pass(&mut self, at: usize)
        ensures count { self.new.count ≡ self.old.count }
        ensures own { (i : ℕ) → i < self.old.count → i ≢ at → R.passed (row R.blank self.old i) (row R.blank self.new i) }
        ensures meaning { (i : ℕ) → i < self.old.count → i ≢ at → RailPassed (R.meaning (row R.blank self.old i)) (R.meaning (row R.blank self.new i)) }
    {
        for (i, rail) in self.rails[..self.count as usize].iter_mut().enumerate() {
            pass_other(rail, i == at);
        }
    }
}

impl<R: Rail> Board for Bench<R> {
    const CEILING: u16 = R::CEILING;

    ghost CEILING = { R.Rail.CEILING };

    ghost rails = { λ b. b.count };

    ghost patience = { λ _. R.Rail.patience };

    ghost value = { of_each R.Rail.blank (λ x. (R.Rail.meaning x).value) };

    ghost target = { of_each R.Rail.blank (λ x. (R.Rail.meaning x).target) };

    ghost pending = { of_each R.Rail.blank (λ x. (R.Rail.meaning x).pending) };

    ghost credit = { of_each R.Rail.blank (λ x. (R.Rail.meaning x).credit) };

    ghost starts = { BenchStarted R.Rail.blank R.Rail.sent };

    ghost polls = { BenchPolled R.Rail.blank R.Rail.asked R.Rail.passed };

    ghost counted = { Prim.search rules };

    ghost stands = { λ b. record { settled = λ i _. (R.Rail.stands (row R.Rail.blank b i)).settled; patient = λ i _. (R.Rail.stands (row R.Rail.blank b i)).patient } };

    fn count(&self) -> u8 {
        self.count
    }

    fn start(&mut self, rail: u8, goal: u16) -> Result<(), BoardFault> {
        let at = self.place(rail)?;
        self.rails[at] = self.rails[at].start(goal)?;
        Ok(())
    }

    fn poll(&mut self, rail: u8) -> Result<bool, BoardFault> {
        let at = self.place(rail)?;
        let (polled, arrived) = self.rails[at].poll();
        self.pass(at);
        self.rails[at] = polled;
        Ok(arrived)
    }

    fn look(&self, rail: u8) -> Result<(u16, bool), BoardFault> {
        let at = self.place(rail)?;
        Ok(self.rails[at].look())
    }
}
