// A trial: a moving rail's span beside the values at which the others stand.
ghost use Rattle.std.specs.Prelude.{◌≡◌, ◌<◌, slice_set, Decides};
ghost use Rattle.histories.specs.declared.rail.Rail.TheVariants.{Moving};
ghost use Rattle.histories.specs.Spans.{span_of, SpansOf};
ghost use Rattle.ordering.specs.Sets.{bit, place, Changes};
ghost use Rattle.ordering.specs.Steps.{Next, Movable};
ghost use Rattle.ordering.specs.Filling.{mixes, units_of, standing};

use crate::search::Search;
use histories::Rail;
use platform::Bounds;
use spans::lowest_bad_on;

// A record of spans in which one rail's has been changed; it is put back however the trial ends.
struct Trial<'a> {
    spans: &'a mut [Bounds; 24],
    rail: usize,
    old: Bounds,
}

impl Drop for Trial<'_> {
    fn drop(self)
        requires { self.rail < 24 }
        ensures { self.exit.0.now ≡ slice_set self.entry.spans.now self.entry.rail self.entry.old }
    {
        self.spans[self.rail] = self.old;
        let Trial {
            spans: _,
            rail: _,
            old: _,
        } = self;
    }
}

impl Search<'_> {
    // All values of a rail from one mix to the other.
    fn way(&self, rail: usize) -> Bounds
        requires { rail < (mixes self.now.change).rails }
        ensures { result ≡ span_of (Moving ((mixes self.now.change).first rail) ((mixes self.now.change).last rail)) }
    {
        Rail::Moving {
            origin: self.change.first.values[rail],
            target: self.change.last.values[rail],
        }
        .span()
    }

    // Can the rail be moved next after those of a set, where the spans show that they have moved? The spans are as they were afterwards.
    pub(crate) fn follows(&self, spans: &mut [Bounds; 24], set: usize, rail: usize) -> bool
        requires shown { SpansOf 24 (standing (mixes self.now.change) set) spans.old }
        requires movable { Movable (units_of self.now.change) (mixes self.now.change) set }
        requires changes { Changes (mixes self.now.change) rail }
        requires out { bit set (place (mixes self.now.change) rail) ≡ 0 }
        ensures same { spans.new ≡ spans.old }
        ensures says { Decides result (Next (units_of self.now.change) (mixes self.now.change) set rail) }
    {
        let old = spans[rail];
        let trial = Trial { spans, rail, old };
        trial.spans[rail] = self.way(rail);
        lowest_bad_on(self.change.platform, rail, trial.spans).is_none()
    }
}
