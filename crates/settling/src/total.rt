// What any modes cost, rest or pass.
ghost use Rattle.std.specs.Prelude.{◌≡◌};
ghost use Rattle.platform.specs.Units.{mode_at};
ghost use Rattle.platform.specs.Devices.{device};
ghost use Rattle.settling.specs.Choices.{units_of};
ghost use Rattle.settling.specs.Tolls.{cost};

use crate::cost::Cost;
use platform::{Platform, Unit};

// What the unit costs in the mode: nothing where it lacks that mode.
fn mode_cost<C: Cost>(unit: &Unit, mode: usize) -> C
    ensures { result ≡ C.toll.of (mode_at (device unit.now) mode) }
{
    unit.modes
        .get(mode)
        .map_or(C::nothing(), |chosen| C::from(*chosen))
}

// The cost of one mode for each unit.
pub fn cost_of<C: Cost>(platform: &Platform, modes: [u8; 24]) -> C
    ensures { result ≡ cost C.toll (units_of platform.now) modes }
{
    let mut sum = C::nothing();
    for (unit, mode) in platform.units().iter().zip(&modes) {
        sum = sum.plus(mode_cost(unit, *mode as usize));
    }
    sum
}
