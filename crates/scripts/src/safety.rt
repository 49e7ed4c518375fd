// Which step of a script leaves spans that are not safe.
ghost use Rattle.std.specs.Prelude.{MatchOption};
ghost use Rattle.platform.specs.Units.{value_of};
ghost use Rattle.platform.specs.Making.{model_of};
ghost use Rattle.histories.specs.Rails.{after};
ghost use Rattle.histories.specs.Spans.{SpansOf};
ghost use Rattle.openings.specs.Openings.{SafeScript};
ghost use Rattle.scripts.specs.Checking.{UnsafeStep};

use crate::proposal::Proposal;
use platform::Bounds;
use spans::{BadUnit, lowest_bad};
use std::array;

// A step with the lowest unit for which its spans are not safe.
#[derive(Clone, Copy, Debug, PartialEq, Eq)]
pub(crate) struct BadStep {
    pub step: usize,
    pub bad: BadUnit,
}

impl Proposal<'_> {
    // The spans after the first `place` steps, also past the platform's rails, where they are not read.
    fn spans(&self, place: usize) -> [Bounds; 24]
        ensures { SpansOf 24 (after (value_of self.now.first.now.values) self.now.script.now place) result }
    {
        array::from_fn(|rail| self.rail(place, rail).span())
    }

    // The first step whose spans are not safe for every unit.
    pub(crate) fn unsafe_step(&self) -> Option<BadStep>
        ensures { MatchOption result (SafeScript (model_of self.now.platform.now).rails (model_of self.now.platform.now).units (value_of self.now.first.now.values) self.now.script.now) (λ b. UnsafeStep (model_of self.now.platform.now) (value_of self.now.first.now.values) self.now.script.now b.step b.bad.unit b.bad.values) }
    {
        // Tried `find_map`: the proof did not close, since it has no lemma yet.
        for step in 0..self.script.len() {
            if let Some(bad) = lowest_bad(self.platform, &self.spans(step + 1)) {
                return Some(BadStep { step, bad });
            }
        }
        None
    }
}
