// What holds of all spans, and worked cases of the definitions.
ghost use Rattle.std.specs.Prelude.{[], ◌∷◌};
ghost use Rattle.spans.specs.Safety.{SafeFor, BadValues};
ghost use Rattle.spans.specs.Cases.{from_to, two_modes};
ghost use Rattle.spans.specs.Moving.{OneRail};

// After a change of one rail's span it is enough to look at the units on that rail.
pub fn one_rail()
    ensures { OneRail }
{}

// Two modes side by side are safe for a span across both; a gap between them is first met at its lowest value.
pub fn worked_cases()
    ensures joined { SafeFor 1 (from_to 0 1650 ∷ []) (two_modes (from_to 0 900) (from_to 901 1950)) }
    ensures gap { BadValues 1 (from_to 0 1650 ∷ []) (two_modes (from_to 0 500) (from_to 900 1950)) (501 ∷ []) }
{}
