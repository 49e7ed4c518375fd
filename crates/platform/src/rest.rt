// Whether a mix puts every unit in a rest mode.
ghost use Rattle.std.specs.Prelude.{◌≡◌, ◌<◌, length, Decides, MatchOption};
ghost use Rattle.platform.specs.Units.{InMode, AtRest, Resting};
ghost use Rattle.platform.specs.Devices.{device};
ghost use Rattle.platform.specs.Making.{model_of};
ghost use Rattle.platform.specs.Resting.{LowestUnrested};

use crate::parts::{Mix, Mode};
use crate::platform::Platform;
use crate::unit::Unit;
use sheets::Kind;

// Is the unit in the mode? It is told by its number, as definitions name it.
fn in_mode(unit: &Unit, mode: usize, mix: Mix) -> bool
    requires { mode < length (device unit.now).modes }
    ensures { Decides result (InMode (device unit.now) mode mix.values) }
{
    let Mode { bounds, .. } = unit.modes[mode];
    unit.pins
        .iter()
        .zip(&bounds)
        .all(|(pin, at)| at.holds(mix.values[pin.rail as usize]))
}

// Is the unit in one of its rest modes?
fn at_rest(unit: &Unit, mix: Mix) -> bool
    ensures { Decides result (AtRest (device unit.now) mix.values) }
{
    unit.modes.iter().enumerate().any(|(mode, chosen)| matches!(chosen.kind, Kind::Rest)
        && in_mode(unit, mode, mix))
}

impl Platform {
    // The lowest unit that the mix puts in none of its rest modes.
    pub fn lowest_unrested(&self, mix: Mix) -> Option<usize>
        ensures { MatchOption result (Resting (model_of self.now).units mix.values) (λ u. LowestUnrested (model_of self.now).units mix.values u) }
    {
        self.units.iter().position(|unit| !at_rest(unit, mix))
    }

    // Does the mix rest?
    pub fn rests(&self, mix: Mix) -> bool
        ensures { Decides result (Resting (model_of self.now).units mix.values) }
    {
        self.lowest_unrested(mix).is_none()
    }
}
