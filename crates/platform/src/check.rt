// The two rules that the sheets alone do not keep: pins of a unit apart, and one driver for each rail.
ghost use Rattle.std.specs.Prelude.{◌≡◌, ℕ, ◌<◌, ◌≤◌, length, Decides, MatchOption};
ghost use Rattle.platform.specs.Devices.{device, devices};
ghost use Rattle.platform.specs.Rules.{drives, drivers_among, drivers, AloneTo, Apart, Each, Driven};
ghost use Rattle.platform.specs.Making.{LowestTwice, LowestUndriven};

use crate::parts::Pin;
use crate::unit::Unit;
use sheets::Way;

// Is no later pin on the rail of this one? Tried: with the pin itself and those after it handed on, the proof did not close.
fn alone(unit: &Unit, at: usize) -> bool
    requires { at < length (device unit.now).pins }
    ensures { Decides result (AloneTo (length (device unit.now).pins) (device unit.now) at) }
{
    let rail = unit.pins[at].rail;
    for later in &unit.pins[at + 1..] {
        if later.rail == rail {
            return false;
        }
    }
    true
}

fn apart(unit: &Unit) -> bool
    ensures { Decides result (Apart (device unit.now)) }
{
    (0..unit.pins.len()).all(|pin| alone(unit, pin))
}

// The lowest unit with two pins on one rail.
pub(crate) fn lowest_twice(units: &[Unit]) -> Option<usize>
    ensures { MatchOption result (Each Apart (devices units.now)) (λ u. LowestTwice (devices units.now) u) }
{
    units.iter().position(|unit| !apart(unit))
}

fn drives(pin: Pin, rail: usize) -> bool
    ensures { result ≡ drives rail pin }
{
    matches!(pin.way, Way::Drives) && pin.rail as usize == rail
}

// How many of the pins drive the rail.
fn drivers_among(pins: &[Pin], rail: usize) -> usize
    ensures { result ≡ drivers_among rail pins.now }
{
    pins.iter().filter(|pin| drives(**pin, rail)).count()
}

// How many pins drive the rail.
fn drivers(units: &[Unit], rail: usize) -> usize
    requires { length units.now ≤ 24 }
    ensures { result ≡ drivers rail (devices units.now) }
{
    let mut count = 0;
    for unit in units {
        count += drivers_among(&unit.pins, rail);
    }
    count
}

// The lowest rail without exactly one driving pin.
pub(crate) fn lowest_undriven(units: &[Unit], rails: usize) -> Option<usize>
    requires { length units.now ≤ 24 }
    ensures { MatchOption result (Driven rails (devices units.now)) (λ rail. LowestUndriven rails (devices units.now) rail) }
{
    (0..rails).find(|rail| drivers(units, *rail) != 1)
}
