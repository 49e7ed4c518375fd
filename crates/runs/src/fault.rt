// Why the opening of a run is refused.
ghost use Rattle.std.specs.Prelude.{◌≡◌};
ghost use Rattle.runs.specs.declared.fault.OpenFault.TheVariants.{Script};
ghost use Rattle.runs.specs.Faults.{open_number};

use scripts::ScriptFault;

// The run is open already; the script or one of its mixes is refused; the board has another count of rails, a value or target
// is above its ceiling, or a rail of it is pending or not at its first value.
#[derive(Clone, Copy, Debug, PartialEq, Eq)]
pub enum OpenFault {
    NotEmpty,
    Script(ScriptFault),
    Board,
}

impl OpenFault {
    // The refusal's number.
    pub fn number(self) -> u8
        ensures { result ≡ open_number self }
    {
        match self {
            OpenFault::NotEmpty => 17,
            OpenFault::Script(fault) => fault.number(),
            OpenFault::Board => 20,
        }
    }
}

impl From<ScriptFault> for OpenFault {
    ghost from_gives = { λ e r. r ≡ Script e };

    fn from(e: ScriptFault) -> OpenFault {
        OpenFault::Script(e)
    }
}
