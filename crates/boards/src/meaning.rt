// The board trait: what every board means, whatever its make.
ghost use Rattle.std.specs.Prelude.{◌≡◌, ℕ, ◌<◌, ◌≤◌, Bool, OnOk, IfOk, MatchResult};
ghost use Rattle.boards.specs.Faults.{Refused};
ghost use Rattle.boards.specs.Meaning.{meant, Stands, Started, Polled};

use crate::fault::BoardFault;

pub trait Board {
    // The most that a rail of this make may be sent to, in mV.
    const CEILING: u16;

    ghost CEILING: { ℕ };

    ghost rails: { Self → ℕ };

    // The most that a rail's credit may be; no call answers it.
    ghost patience: { Self → ℕ };

    // Of each rail, by its number.
    ghost value: { Self → ℕ → ℕ };

    ghost target: { Self → ℕ → ℕ };

    ghost pending: { Self → ℕ → Bool };

    // How often a poll of the rail may still be answered no.
    ghost credit: { Self → ℕ → ℕ };

    // What a start and a poll of this very make do, beside the meaning. No law binds them.
    ghost starts: { Self → ℕ → ℕ → Self → Type 0 };

    ghost polls: { Self → ℕ → Bool → Self → Type 0 };

    // The number of rails.
    fn count(&self) -> u8
        ensures { result ≡ rails self.now };

    // Sends a rail towards a goal in mV.
    fn start(&mut self, rail: u8, goal: u16) -> Result<(), BoardFault>
        ensures kept { (rails self.new ≡ rails self.old) × (patience self.new ≡ patience self.old) }
        ensures granted { let in_range = (rail < rails self.old) × (goal ≤ CEILING) in MatchResult result (λ _. in_range) (λ e. Refused in_range e × (self.new ≡ self.old)) }
        ensures meaning { OnOk result (Started (rails self.old) (patience self.old) (meant value target pending credit self.old) rail goal (meant value target pending credit self.new)) }
        ensures own { OnOk result (starts self.old rail goal self.new) };

    // Asks whether a rail has arrived; every rail may move meanwhile.
    fn poll(&mut self, rail: u8) -> Result<bool, BoardFault>
        ensures kept { (rails self.new ≡ rails self.old) × (patience self.new ≡ patience self.old) }
        ensures granted { let in_range = rail < rails self.old in MatchResult result (λ _. in_range) (λ e. Refused in_range e × (self.new ≡ self.old)) }
        ensures meaning { IfOk result (λ said. Polled (rails self.old) (meant value target pending credit self.old) rail said (meant value target pending credit self.new)) }
        ensures own { IfOk result (λ said. polls self.old rail said self.new) };

    // A rail's value in mV, and whether it is pending.
    fn look(&self, rail: u8) -> Result<(u16, bool), BoardFault>
        ensures { let in_range = rail < rails self.now in MatchResult result (λ seen. in_range × (seen.0 ≡ value self.now rail) × (seen.1 ≡ pending self.now rail)) (Refused in_range) };

    ghost counted: { (b : Self) → (1 ≤ rails b) × (rails b ≤ 24) };

    ghost stands: { (b : Self) → Stands (rails b) (patience b) (meant value target pending credit b) };
}
