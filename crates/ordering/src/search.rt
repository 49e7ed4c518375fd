// A search among the sets of changed rails.
ghost use Rattle.std.specs.Prelude.{◌≡◌, ℕ, ◌^◌, ◌<◌, ◌≤◌, Decides};
ghost use Rattle.platform.specs.Units.{value_of};
ghost use Rattle.histories.specs.declared.rail.Rail.TheVariants.{Still};
ghost use Rattle.histories.specs.Spans.{span_of, SpansOf};
ghost use Rattle.ordering.specs.Sets.{bit, count, place, Changes};
ghost use Rattle.ordering.specs.Filling.{mixes, standing, Placed};

use crate::change::Change;
use histories::Rail;
use platform::{Bounds, Mix};

// A change of at most 16 rails.
#[derive(Drop)]
pub(crate) struct Search<'a> {
    pub(crate) change: Change<'a>,
    // The bit that stands for each rail in a set's number.
    pub(crate) places: [usize; 24],
    // How many rails change.
    pub(crate) changed: usize,
    ghost placed: { Placed (mixes change) places },
    ghost counted: { changed ≡ count (mixes change) },
    ghost few: { changed ≤ 16 },
}

// The span of a rail that stands at a mix.
fn point(mix: &Mix, rail: usize) -> Bounds
    requires { rail < 24 }
    ensures { result ≡ span_of (Still (value_of mix.now.values rail)) }
{
    let value = mix.values[rail];
    Rail::Still { value }.span()
}

impl Search<'_> {
    // How many sets there are.
    pub(crate) fn size(&self) -> usize
        ensures { result ≡ 2 ^ count (mixes self.now.change) }
    {
        1 << self.changed
    }

    pub(crate) fn rails(&self) -> usize
        ensures { result ≡ (mixes self.now.change).rails }
    {
        self.change.platform.rails() as usize
    }

    // Does the rail change?
    pub(crate) fn changes(&self, rail: usize) -> bool
        requires { rail < (mixes self.now.change).rails }
        ensures { Decides result (Changes (mixes self.now.change) rail) }
    {
        self.change.first.values[rail] != self.change.last.values[rail]
    }

    // The number of the set of this rail alone.
    pub(crate) fn alone(&self, rail: usize) -> usize
        requires { rail < (mixes self.now.change).rails }
        ensures { result ≡ 2 ^ place (mixes self.now.change) rail }
    {
        1 << self.places[rail]
    }

    // Does the set's number have the rail's bit?
    pub(crate) fn has(&self, set: usize, rail: usize) -> bool
        requires { rail < 24 }
        ensures { Decides result (bit set (place (mixes self.now.change) rail) ≡ 1) }
    {
        (set >> self.places[rail]) % 2 == 1
    }

    // The span of a rail once those of a set have moved.
    fn stood(&self, set: usize, rail: usize) -> Bounds
        requires { rail < 24 }
        ensures { result ≡ span_of (standing (mixes self.now.change) set rail) }
    {
        if self.has(set, rail) {
            point(self.change.last, rail)
        } else {
            point(self.change.first, rail)
        }
    }

    // The spans of the mix at which the rails of a set have moved, also past the platform's rails, where they are not read.
    pub(crate) fn stand(&self, set: usize) -> [Bounds; 24]
        ensures { SpansOf 24 (standing (mixes self.now.change) set) result }
    {
        let mut spans = [Bounds { low: 0, high: 0 }; 24];
        for (rail, span) in spans.iter_mut().enumerate() {
            *span = self.stood(set, rail);
        }
        spans
    }
}
