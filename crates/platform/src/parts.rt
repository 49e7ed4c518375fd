// The parts of a platform: pins, modes and their bounds; and a mix, which has a value for each rail.
ghost use Rattle.std.specs.Prelude.{◌≡◌, ◌≤◌, Decides};
ghost use Rattle.platform.specs.Units.{Within};
ghost use Rattle.platform.specs.Describing.{pin_from, bounds_from};

use sheets::{BoundRow, Demand, Kind, PinRow, Way};

// A low and a high in millivolts, both included.
#[derive(Clone, Copy, Debug, PartialEq, Eq)]
pub struct Bounds {
    pub low: u16,
    pub high: u16,
}

impl Bounds {
    // Does the value lie within?
    pub fn holds(self, value: u16) -> bool
        ensures { Decides result (Within self value) }
    {
        self.low <= value && value <= self.high
    }

    // Does any value lie within?
    pub fn is_open(self) -> bool
        ensures { Decides result (self.low ≤ self.high) }
    {
        self.low <= self.high
    }
}

impl From<BoundRow> for Bounds {
    ghost from_gives = { λ row bounds. bounds ≡ bounds_from row };

    fn from(row: BoundRow) -> Bounds {
        Bounds {
            low: row.low,
            high: row.high,
        }
    }
}

impl From<Demand> for Bounds {
    ghost from_gives = { λ demand bounds. (bounds.low ≡ demand.low) × (bounds.high ≡ demand.high) };

    fn from(demand: Demand) -> Bounds {
        Bounds {
            low: demand.low,
            high: demand.high,
        }
    }
}

#[derive(Clone, Copy, Debug, PartialEq, Eq)]
pub struct Pin {
    pub rail: u8,
    pub way: Way,
}

impl From<PinRow> for Pin {
    ghost from_gives = { λ row pin. pin ≡ pin_from row };

    fn from(row: PinRow) -> Pin {
        Pin {
            rail: row.rail,
            way: row.way,
        }
    }
}

// The draw is in milliwatts. Of the bounds only those of the unit's own pins are read.
// Four pins are all that a unit may have, so a mode is plain data with an array for them.
#[derive(Clone, Copy, Debug, PartialEq, Eq)]
pub struct Mode {
    pub kind: Kind,
    pub draw: u32,
    pub heat: u8,
    pub bounds: [Bounds; 4],
}

// A value in millivolts for each of the 24 rails that a board may have; values of rails that it lacks are not looked at.
#[derive(Clone, Copy, Debug, PartialEq, Eq)]
pub struct Mix {
    pub values: [u16; 24],
}
