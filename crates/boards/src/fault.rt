// What a board refuses.
ghost use Rattle.std.specs.Prelude.{◌≡◌};
ghost use Rattle.boards.specs.Faults.{number_of};

// A rail, a target, a count or a setting is out of the board's range.
#[derive(Clone, Copy, Debug, PartialEq, Eq)]
pub enum BoardFault {
    OutOfRange,
}

impl BoardFault {
    // The refusal's number.
    pub fn number(self) -> u8
        ensures { result ≡ number_of self }
    {
        match self {
            BoardFault::OutOfRange => 16,
        }
    }
}
