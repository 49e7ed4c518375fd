// Whether a line comes in turn, for sheets that number things within units.
ghost use Rattle.std.specs.Prelude.{◌≡◌, Decides, MatchOption};
ghost use Rattle.sheets.specs.Turns.{Begins, Follows};

use crate::rows::{ModeRow, PinRow};

// A pin or a mode, by its unit and its number there.
#[derive(Clone, Copy, Debug, PartialEq, Eq)]
pub(crate) struct Turn {
    pub(crate) unit: u8,
    pub(crate) number: u8,
}

impl Turn {
    // Whether it comes right after `before`, or begins a sheet where nothing is before it.
    pub(crate) fn follows(self, before: Option<Turn>) -> bool
        ensures { Decides result (MatchOption before (Begins self.unit self.number) (λ b. Follows self.unit self.number b.unit b.number)) }
    {
        let Turn { unit, number } = self;
        match before {
            Some(before) if number > 0 => unit == before.unit && number - 1 == before.number,
            Some(before) => unit > 0 && unit - 1 == before.unit,
            None => unit == 0 && number == 0,
        }
    }
}

impl PinRow {
    pub(crate) fn turn(&self) -> Turn
        ensures unit { result.unit ≡ self.now.unit }
        ensures number { result.number ≡ self.now.pin }
    {
        Turn {
            unit: self.unit,
            number: self.pin,
        }
    }
}

impl ModeRow {
    pub(crate) fn turn(&self) -> Turn
        ensures unit { result.unit ≡ self.now.unit }
        ensures number { result.number ≡ self.now.mode }
    {
        Turn {
            unit: self.unit,
            number: self.mode,
        }
    }
}
