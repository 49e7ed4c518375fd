// A platform, whose type says that it keeps every rule.
ghost use Rattle.std.specs.Prelude.{◌≤◌, length};
ghost use Rattle.platform.specs.Devices.{devices};
ghost use Rattle.platform.specs.Rules.{Each, PinsCounted, ModesCounted, Wired, Apart, Mild, Cool, Level, Driven};

use crate::unit::Unit;

#[derive(Drop)]
pub struct Platform {
    pub(crate) rails: u8,
    pub(crate) units: Vec<Unit>,
    ghost rails_counted: { (1 ≤ rails) × (rails ≤ 24) },
    ghost units_counted: { (1 ≤ length (devices units.items)) × (length (devices units.items) ≤ 24) },
    ghost pins_counted: { Each PinsCounted (devices units.items) },
    ghost modes_counted: { Each ModesCounted (devices units.items) },
    ghost wired: { Each (Wired rails) (devices units.items) },
    ghost apart: { Each Apart (devices units.items) },
    ghost mild: { Each Mild (devices units.items) },
    ghost cool: { Each Cool (devices units.items) },
    ghost level: { Each Level (devices units.items) },
    ghost driven: { Driven rails (devices units.items) },
}
