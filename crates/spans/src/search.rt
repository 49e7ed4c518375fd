// The search for the first values that no mode holds, in two methods that call each other.
ghost use Rattle.std.specs.Prelude.{◌<◌, length, replicate};
ghost use Rattle.platform.specs.Devices.{device};
ghost use Rattle.spans.specs.Searching.{values_of, Seeks};

use crate::trial::Trial;
use platform::{Bounds, Unit};

impl Trial<'_> {
    // Goes on to the next pin. With no pin left the values are bad if no mode is left.
    #[cycle(go_on_try_pin)]
    fn go_on(&self) -> Option<[u16; 4]>
        ensures { Seeks (device self.now.unit.now) self.now.spans.now self.now.pin (values_of self.now.values) result }
    {
        if self.pin < self.unit.pins.len() {
            self.try_pin()
        } else if self.any_alive() {
            None
        } else {
            Some(self.values)
        }
    }

    // Tries values of the span at the next pin: its low, and then each one past the reach of the modes that held the last.
    // A mode is left behind each time, so the tries are at most one more than the modes, however wide the span is.
    #[cycle(go_on_try_pin)]
    fn try_pin(&self) -> Option<[u16; 4]>
        requires { self.now.pin < length (device self.now.unit.now).pins }
        ensures { Seeks (device self.now.unit.now) self.now.spans.now self.now.pin (values_of self.now.values) result }
    {
        let Trial {
            unit,
            spans,
            pin,
            ..
        } = *self;
        let Bounds { low, high } = spans[unit.pins[pin].rail as usize];
        let mut value = low;
        while value <= high {
            let mut values = self.values;
            values[pin] = value;
            let alive = self.keep(value);
            let tried = Trial {
                unit,
                spans,
                pin: pin + 1,
                values,
                alive,
            };
            if let Some(bad) = tried.go_on() {
                return Some(bad);
            }
            let far = tried.reach(pin, high);
            if far == high {
                return None;
            }
            value = far + 1;
        }
        None
    }
}

// The first values inside the spans that no mode of the unit holds, 0 past its last pin.
pub(crate) fn first_unheld(unit: &Unit, spans: &[Bounds; 24]) -> Option<[u16; 4]>
    ensures { Seeks (device unit.now) spans.now 0 (values_of (replicate 4 0)) result }
{
    let blank = Trial {
        unit,
        spans,
        pin: 0,
        values: [0; 4],
        alive: [true; 6],
    };
    blank.go_on()
}
