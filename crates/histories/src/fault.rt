// Why a call on a run is refused.
ghost use Rattle.std.specs.Prelude.{◌≡◌};
ghost use Rattle.histories.specs.Faults.{run_number};

// The run is not open; the board has another count of rails, or a value of the run is above its ceiling; a close between the script's ends.
#[derive(Clone, Copy, Debug, PartialEq, Eq)]
pub enum RunFault {
    NotOpen,
    Unsuited,
    Between,
}

impl RunFault {
    // The refusal's number.
    pub fn number(self) -> u8
        ensures { result ≡ run_number self }
    {
        match self {
            RunFault::NotOpen => 21,
            RunFault::Unsuited => 20,
            RunFault::Between => 22,
        }
    }
}
