// A choice for the first units, with its windows and its cost.
ghost use Rattle.std.specs.Prelude.{◌<◌, length};
ghost use Rattle.platform.specs.Units.{mode_at};
ghost use Rattle.platform.specs.Devices.{device};
ghost use Rattle.settling.specs.Tolls.{Room};
ghost use Rattle.settling.specs.Searching.{Extends};

use crate::cost::Cost;
use crate::windows::narrowed;
use platform::{Bounds, Unit};

// The units that have no mode yet are at mode 0. Fixed memory: settling does not allocate.
#[derive(Clone, Copy)]
pub(crate) struct Draft<C> {
    pub(crate) modes: [u8; 24],
    pub(crate) windows: [Bounds; 24],
    pub(crate) cost: C,
}

impl<C: Cost> Draft<C> {
    // The draft with the unit at `at` in the mode, which is told by its number, as choices name it.
    pub(crate) fn extended(self, unit: &Unit, at: usize, mode: usize) -> Draft<C>
        requires at { at < 24 }
        requires mode { mode < length (device unit.now).modes }
        requires room { Room C.toll self.cost (C.toll.of (mode_at (device unit.now) mode)) }
        ensures { Extends C.toll (device unit.now) at mode self result }
    {
        let mut modes = self.modes;
        modes[at] = mode as u8;
        Draft {
            modes,
            windows: narrowed(self.windows, unit, mode),
            cost: self.cost.plus(C::from(unit.modes[mode])),
        }
    }
}
