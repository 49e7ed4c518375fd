// What a script has a rail do.
ghost use Rattle.std.specs.Prelude.{◌≡◌, [], ◌∷◌, Decides};
ghost use Rattle.histories.specs.Rails.{end_of, origin_of, stepped, IsStill, IsMoving};
ghost use Rattle.histories.specs.Spans.{span_of};

use crate::step::Step;
use platform::Bounds;

// A rail stands still at a value, or moves from an origin to a target, in mV.
#[derive(Clone, Copy, Debug, PartialEq, Eq)]
pub enum Rail {
    Still { value: u16 },
    Moving { origin: u16, target: u16 },
}

impl Rail {
    pub fn is_still(self) -> bool
        ensures { Decides result (IsStill self) }
    {
        matches!(self, Rail::Still { .. })
    }

    pub fn is_moving(self) -> bool
        ensures { Decides result (IsMoving self) }
    {
        matches!(self, Rail::Moving { .. })
    }

    // The value that it comes to.
    pub fn end(self) -> u16
        ensures { result ≡ end_of self }
    {
        match self {
            Rail::Still { value } => value,
            Rail::Moving { target, .. } => target,
        }
    }

    // The value that it comes from.
    pub fn origin(self) -> u16
        ensures { result ≡ origin_of self }
    {
        match self {
            Rail::Still { value } => value,
            Rail::Moving { origin, .. } => origin,
        }
    }

    // Every value that it may have meanwhile.
    pub fn span(self) -> Bounds
        ensures { result ≡ span_of self }
    {
        let (from, to) = (self.origin(), self.end());
        Bounds {
            low: from.min(to),
            high: from.max(to),
        }
    }

    // The rail of this number after one more step.
    pub fn stepped(self, step: Step, number: usize) -> Rail
        ensures { result ≡ stepped (step ∷ []) (λ _. self) number }
    {
        if number != step.rail() as usize {
            return self;
        }
        match step {
            Step::Start { target, .. } => Rail::Moving {
                origin: self.end(),
                target,
            },
            Step::Wait { .. } => Rail::Still { value: self.end() },
        }
    }
}
