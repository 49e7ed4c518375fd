// The rail trait: what every rail of a bench means, whatever its make, and what its own make does.
ghost use Rattle.std.specs.Prelude.{◌≡◌, ℕ, ◌≤◌, Bool, MatchResult};
ghost use Rattle.boards.specs.Faults.{Refused};
ghost use Rattle.boards.specs.Rails.{RailMeaning, RailStands, RailStarted, RailPassed, RailPolled};

use crate::fault::BoardFault;

pub trait Rail: Copy {
    // The most that it may be sent to, in mV.
    const CEILING: u16;

    // What is set for each rail of this make when a bench is made.
    type Setting: Copy;

    ghost CEILING: { ℕ };

    // The most that its credit may be.
    ghost patience: { ℕ };

    // What a board means of it.
    ghost meaning: { Self → RailMeaning };

    // What no rail has, and what is set for none.
    ghost blank: { Self };

    ghost unset: { Self.Setting };

    // A setting in range.
    ghost suits: { Self.Setting → Type 0 };

    // What rest, start, poll and pass of this very make do, beside the meaning.
    ghost rests: { Self.Setting → ℕ → Self → Type 0 };

    ghost sent: { ℕ → Self → Self → Type 0 };

    ghost asked: { Bool → Self → Self → Type 0 };

    ghost passed: { Self → Self → Type 0 };

    // A rail at rest at a value in mV.
    fn rest(setting: Self::Setting, mv: u16) -> Result<Self, BoardFault>
        ensures { let in_range = suits setting × (mv ≤ CEILING) in MatchResult result (λ x. in_range × rests setting mv x) (Refused in_range) };

    // The rail, sent towards a goal in mV.
    fn start(self, goal: u16) -> Result<Self, BoardFault>
        ensures { let in_range = goal ≤ CEILING in MatchResult result (λ x. in_range × RailStarted patience goal (meaning self) (meaning x) × sent goal self x) (Refused in_range) };

    // The rail after a poll of it, and whether it has arrived.
    fn poll(self) -> (Self, bool)
        ensures meaning { RailPolled result.1 (meaning self) (meaning result.0) }
        ensures own { asked result.1 self result.0 };

    // A poll of another rail.
    fn pass(&mut self)
        ensures meaning { RailPassed (meaning self.old) (meaning self.new) }
        ensures own { passed self.old self.new };

    // Its value in mV, and whether it is pending.
    fn look(self) -> (u16, bool)
        ensures { (result.0 ≡ (meaning self).value) × (result.1 ≡ (meaning self).pending) };

    ghost stands: { (x : Self) → RailStands patience (meaning x) };
}
