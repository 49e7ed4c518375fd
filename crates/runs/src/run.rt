// A run: empty, or open on a script.
ghost use Rattle.std.specs.Prelude.{◌≡◌, Decides, None};
ghost use Rattle.runs.specs.Opening.{IsOpen};

use crate::journey::Journey;
use std::marker::Model;

#[derive(Clone, Copy)]
pub struct Run {
    pub(crate) journey: Option<Journey>,
}

impl Model for Run {
    ghost use Rattle.std.specs.Prelude.{Option};
    ghost use Rattle.runs.specs.declared.journey.Journey.{Journey};

    ghost Value = { Option Journey };

    ghost view = { λ run. run.journey };

    ghost inverse = { λ held. record { journey = held } };
}

impl Run {
    // A run that is not open yet.
    pub fn empty() -> Run
        ensures { result ≡ None }
    {
        Run { journey: None }
    }

    pub fn is_open(&self) -> bool
        ensures { Decides result (IsOpen self.now) }
    {
        self.journey.is_some()
    }
}
