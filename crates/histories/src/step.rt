// The steps of a script.
ghost use Rattle.std.specs.Prelude.{◌≡◌};
ghost use Rattle.histories.specs.Rails.{rail_of};

// Send a rail to a target in mV, or let a rail arrive.
#[derive(Clone, Copy, Debug, PartialEq, Eq)]
pub enum Step {
    Start { rail: u8, target: u16 },
    Wait { rail: u8 },
}

impl Step {
    // The rail that it is about.
    pub fn rail(self) -> u8
        ensures { result ≡ rail_of self }
    {
        match self {
            Step::Start { rail, .. } | Step::Wait { rail } => rail,
        }
    }
}
