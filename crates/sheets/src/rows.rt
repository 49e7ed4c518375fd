// The rows of the four sheets, as plain records.
ghost use Rattle.std.specs.Prelude.{◌≡◌};
ghost use Rattle.sheets.specs.Turns.{pin_place, place_of};

// Whether a pin drives its rail or loads it.
#[derive(Clone, Copy, Debug, PartialEq, Eq)]
pub enum Way {
    Drives,
    Loads,
}

// A unit may stay in a rest mode; a pass mode is only passed through.
#[derive(Clone, Copy, Debug, PartialEq, Eq)]
pub enum Kind {
    Rest,
    Pass,
}

// A line of sheet 0.
#[derive(Clone, Copy, Debug, PartialEq, Eq)]
pub struct PinRow {
    pub unit: u8,
    pub pin: u8,
    pub rail: u8,
    pub way: Way,
}

// A line of sheet 1: the draw is in milliwatts.
#[derive(Clone, Copy, Debug, PartialEq, Eq)]
pub struct ModeRow {
    pub unit: u8,
    pub mode: u8,
    pub kind: Kind,
    pub draw: u32,
    pub heat: u8,
}

// A line of sheet 2, in millivolts: a row has the fields of its line, low and high among them.
#[derive(Clone, Copy, Debug, PartialEq, Eq)]
pub struct BoundRow {
    pub unit: u8,
    pub mode: u8,
    pub pin: u8,
    pub low: u16,
    pub high: u16,
}

// A line of sheet 3: the customer wants the rail between two values, both included.
#[derive(Clone, Copy, Debug, PartialEq, Eq)]
pub struct Demand {
    pub rail: u8,
    pub low: u16,
    pub high: u16,
}

// A pin of a mode of a unit, where sheet 2 owes bounds.
#[derive(Clone, Copy, Debug, PartialEq, Eq)]
pub struct Place {
    pub unit: u8,
    pub mode: u8,
    pub pin: u8,
}

impl ModeRow {
    // Where bounds are due at a pin of the mode's unit.
    pub(crate) fn place(&self, pin: &PinRow) -> Place
        ensures { result ≡ pin_place self.now pin.now }
    {
        Place {
            unit: self.unit,
            mode: self.mode,
            pin: pin.pin,
        }
    }
}

impl BoundRow {
    // Where the row's bounds hold.
    pub fn place(&self) -> Place
        ensures { result ≡ place_of self.now }
    {
        Place {
            unit: self.unit,
            mode: self.mode,
            pin: self.pin,
        }
    }
}
