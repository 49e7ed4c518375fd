// What may be wrong with a script.
ghost use Rattle.std.specs.Prelude.{◌≡◌};
ghost use Rattle.scripts.specs.Checking.{script_number};

use openings::End;

// A step out of form, or a rail left moving at the script's end; a mix in which a unit does not rest;
// a step whose spans are not safe for a unit, with its first bad values pin by pin.
#[derive(Clone, Copy, Debug, PartialEq, Eq)]
pub enum ScriptFault {
    OutOfForm {
        step: usize,
    },
    Restless {
        end: End,
        unit: usize,
    },
    Unsafe {
        step: usize,
        unit: usize,
        values: [u16; 4],
    },
}

impl ScriptFault {
    pub fn number(self) -> u8
        ensures { result ≡ script_number self }
    {
        match self {
            ScriptFault::OutOfForm { .. } => 18,
            ScriptFault::Restless { .. } => 12,
            ScriptFault::Unsafe { .. } => 19,
        }
    }
}
