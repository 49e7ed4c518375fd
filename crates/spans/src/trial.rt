// A trial: values for the first pins of a unit, and the modes that hold them.
ghost use Rattle.std.specs.Prelude.{ℕ, ◌<◌, ◌≤◌, length, Decides};
ghost use Rattle.platform.specs.Devices.{device};
ghost use Rattle.spans.specs.Searching.{values_of, Inside, Blank, Alive, Marked, Keeps, Under};

use platform::{Bounds, Unit};

#[derive(Drop)]
pub(crate) struct Trial<'a> {
    pub(crate) unit: &'a Unit,
    pub(crate) spans: &'a [Bounds; 24],
    // How many pins have a value.
    pub(crate) pin: usize,
    // Their values, and 0 past them: a unit has at most four pins.
    pub(crate) values: [u16; 4],
    // Whether each mode holds them: a unit has at most six modes.
    pub(crate) alive: [bool; 6],
    ghost placed: { pin ≤ length (device unit.now).pins },
    ghost inside: { Inside (device unit.now) spans.now pin (values_of values) },
    ghost blank: { Blank pin (values_of values) },
    ghost held: { Alive (device unit.now) pin (values_of values) alive },
}

impl Trial<'_> {
    // Which modes hold the values and `value` at the next pin?
    pub(crate) fn keep(&self, value: u16) -> [bool; 6]
        requires { self.now.pin < 4 }
        ensures { Keeps (length (device self.now.unit.now).modes) (device self.now.unit.now) self.now.pin value self.now.alive result }
    {
        let mut kept = [false; 6];
        // Tried: a proof learns nothing of what is written through `iter_mut` in a `zip`.
        for (number, mode) in self.unit.modes.iter().enumerate() {
            kept[number] = self.alive[number] && mode.bounds[self.pin].holds(value);
        }
        kept
    }

    // How far up the modes that hold the values all reach at the pin, at most `top`.
    pub(crate) fn reach(&self, pin: usize, top: u16) -> u16
        requires { pin < 4 }
        ensures within { result ≤ top }
        ensures all { Under (length (device self.now.unit.now).modes) (device self.now.unit.now) pin self.now.alive result }
        ensures most { (v : ℕ) → v ≤ top → Under (length (device self.now.unit.now).modes) (device self.now.unit.now) pin self.now.alive v → v ≤ result }
    {
        self.unit
            .modes
            .iter()
            .zip(&self.alive)
            .map(|(mode, alive)| if *alive { mode.bounds[pin].high } else { top })
            .min()
            .map_or(top, |far| far.min(top))
    }

    // Does some mode hold the values?
    pub(crate) fn any_alive(&self) -> bool
        ensures { Decides result ((m : ℕ) × ((m < length (device self.now.unit.now).modes) × Marked self.now.alive m)) }
    {
        self.unit
            .modes
            .iter()
            .zip(&self.alive)
            .any(|(_, alive)| *alive)
    }
}
