// Costs: the sum of draws, and the greatest heat class with the sum of draws.
ghost use Rattle.std.specs.Prelude.{◌≡◌, Decides};
ghost use Rattle.settling.specs.Tolls.{Toll, Laws, Reckons, Room};
ghost use Rattle.settling.specs.Sums.{draw_toll, draw_laws, heat_toll, heat_laws};

use platform::Mode;

// What a choice may cost: a nothing, an adding that never lessens, and a total order.
pub trait Cost: Copy + From<Mode> {
    ghost toll: { Toll Self };

    // What each `impl` must prove.
    ghost laws: { Laws toll };

    // Not Default and Add: adding asks for room, and both are the toll's own.
    fn nothing() -> Self
        ensures { result ≡ toll.nothing };

    fn plus(self, other: Self) -> Self
        requires { Room toll self other }
        ensures { result ≡ toll.plus self other };

    // The derived order of each cost; a body here would need one more law that ties the order to the toll.
    fn at_most(self, other: Self) -> bool
        ensures { Decides result (toll.AtMost self other) };

    ghost reckons: { Reckons toll Self.from_gives };
}

// The sum of draws.
#[derive(Clone, Copy, Debug, PartialEq, Eq, PartialOrd, Ord)]
pub struct Draw {
    pub milliwatts: u32,
}

// The greatest heat class, and among equals the sum of draws.
#[derive(Clone, Copy, Debug, PartialEq, Eq, PartialOrd, Ord)]
pub struct HeatThenDraw {
    pub heat: u8,
    pub draw: u32,
}

impl From<Mode> for Draw {
    ghost from_gives = { λ mode draw. draw ≡ draw_toll.of mode };

    fn from(mode: Mode) -> Draw {
        Draw {
            milliwatts: mode.draw,
        }
    }
}

impl Cost for Draw {
    ghost toll = { draw_toll };

    ghost laws = { draw_laws };

    ghost reckons = { λ mode cost is. is };

    fn nothing() -> Draw {
        Draw { milliwatts: 0 }
    }

    fn plus(self, other: Draw) -> Draw {
        Draw {
            milliwatts: self.milliwatts + other.milliwatts,
        }
    }

    fn at_most(self, other: Draw) -> bool {
        self <= other
    }
}

impl From<Mode> for HeatThenDraw {
    ghost from_gives = { λ mode cost. cost ≡ heat_toll.of mode };

    fn from(mode: Mode) -> HeatThenDraw {
        HeatThenDraw {
            heat: mode.heat,
            draw: mode.draw,
        }
    }
}

impl Cost for HeatThenDraw {
    ghost toll = { heat_toll };

    ghost laws = { heat_laws };

    ghost reckons = { λ mode cost is. is };

    fn nothing() -> HeatThenDraw {
        HeatThenDraw { heat: 0, draw: 0 }
    }

    fn plus(self, other: HeatThenDraw) -> HeatThenDraw {
        HeatThenDraw {
            heat: self.heat.max(other.heat),
            draw: self.draw + other.draw,
        }
    }

    fn at_most(self, other: HeatThenDraw) -> bool {
        self <= other
    }
}
