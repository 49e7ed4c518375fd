// Windows: what the demands leave each rail, and what a unit in a mode leaves of that.
ghost use Rattle.std.specs.Prelude.{◌≡◌, ◌<◌, length, Decides};
ghost use Rattle.platform.specs.Devices.{device};
ghost use Rattle.settling.specs.Choices.{Known, Demanded};
ghost use Rattle.settling.specs.Narrowing.{shared, Hold, Open, Still};

use platform::{Bounds, Mode, Unit};
use sheets::Demand;

// The window of a rail that no demand is on.
const ALL: Bounds = Bounds {
    low: 0,
    high: u16::MAX,
};

// What two bounds have in common.
fn common(one: Bounds, other: Bounds) -> Bounds
    ensures { result ≡ shared one other }
{
    Bounds {
        low: one.low.max(other.low),
        high: one.high.min(other.high),
    }
}

// The windows before any unit has a mode.
pub(crate) fn demanded(demands: &[Demand]) -> [Bounds; 24]
    requires { Known 24 demands.now }
    ensures { Hold (Demanded demands.now) result }
{
    let mut windows = [ALL; 24];
    for demand in demands {
        let rail = demand.rail as usize;
        windows[rail] = common(windows[rail], Bounds::from(*demand));
    }
    windows
}

// What is left of the windows once the unit is in the mode, which is told by its number, as choices name it.
pub(crate) fn narrowed(windows: [Bounds; 24], unit: &Unit, mode: usize) -> [Bounds; 24]
    requires { mode < length (device unit.now).modes }
    ensures { Hold (Still (device unit.now) mode windows) result }
{
    let Mode { bounds, .. } = unit.modes[mode];
    let mut left = windows;
    for (pin, allowed) in unit.pins.iter().zip(&bounds) {
        let rail = pin.rail as usize;
        left[rail] = common(left[rail], *allowed);
    }
    left
}

// Is no window empty?
pub(crate) fn all_open(windows: [Bounds; 24]) -> bool
    ensures { Decides result (Open windows) }
{
    windows.iter().all(|window| window.is_open())
}
