// What a refusal says of itself.
ghost use Rattle.std.specs.Prelude.{◌≡◌, Some};
ghost use Rattle.answers.specs.Refusals.{refusal, shown};

use std::fmt;

// Its number, and the sheet and line that it speaks of, both 0 where it speaks of none; number 0 is want of memory.
#[derive(Clone, Copy, Debug, PartialEq, Eq)]
pub struct Refusal {
    pub number: u8,
    pub sheet: u8,
    pub line: usize,
}

impl Refusal {
    pub fn new(number: u8, sheet: u8, line: usize) -> Refusal
        ensures { result ≡ refusal number sheet line }
    {
        Refusal {
            number,
            sheet,
            line,
        }
    }
}

impl fmt::Display for Refusal {
    ghost output = { λ r. Some (shown r) };

    fn fmt<W: fmt::Write>(&self, f: &mut fmt::Formatter<W>) -> fmt::Result {
        write!(f, "{},{},{}", self.number, self.sheet, self.line)
    }
}
