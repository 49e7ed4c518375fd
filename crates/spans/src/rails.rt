// Whether spans are safe for the units on one rail.
ghost use Rattle.std.specs.Prelude.{Decides, MatchOption};
ghost use Rattle.platform.specs.Devices.{device};
ghost use Rattle.platform.specs.Making.{model_of};
ghost use Rattle.spans.specs.Judging.{Touches, AllSafeOn, LowestBadOn};

use crate::judge::{BadUnit, lowest_picked};
use platform::{Bounds, Platform, Unit};

// Has the unit a pin on the rail?
fn touches(unit: &Unit, rail: usize) -> bool
    ensures { Decides result (Touches rail (device unit.now)) }
{
    unit.pins.iter().any(|pin| pin.rail as usize == rail)
}

// The lowest unit on the rail for which the spans are not safe, with its first bad values.
pub fn lowest_bad_on(platform: &Platform, rail: usize, spans: &[Bounds; 24]) -> Option<BadUnit>
    ensures { MatchOption result (AllSafeOn (model_of platform.now) rail spans.now) (λ b. LowestBadOn (model_of platform.now) rail spans.now b.unit b.values) }
{
    // Taken apart, so that an edit of one part is refused for what it says.
    let BadUnit { unit, values } = lowest_picked(platform, spans, |unit| touches(unit, rail))?;
    Some(BadUnit { unit, values })
}
