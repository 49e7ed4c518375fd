// Which step of a script is out of form.
ghost use Rattle.std.specs.Prelude.{[], ◌∷◌, Decides, MatchOption};
ghost use Rattle.platform.specs.Units.{value_of};
ghost use Rattle.histories.specs.Rails.{after, Ready};
ghost use Rattle.openings.specs.Openings.{InForm, Formed, Misstep};
ghost use Rattle.scripts.specs.Checking.{AllStill};

use crate::proposal::Proposal;
use histories::Step;

// As many steps as a script may have.
const STEPS: usize = 64;

impl Proposal<'_> {
    // Does every rail stand after the first `place` steps?
    fn all_still(&self, place: usize) -> bool
        ensures { Decides result (AllStill self.now.platform.now.rails (value_of self.now.first.now.values) self.now.script.now place) }
    {
        (0..self.platform.rails()).all(|rail| self.rail(place, rail as usize).is_still())
    }

    // May the step come after the first `place` steps?
    fn in_order(&self, place: usize, step: Step) -> bool
        ensures { Decides result (Ready self.now.platform.now.rails (step ∷ []) (after (value_of self.now.first.now.values) self.now.script.now place)) }
    {
        let known = step.rail() < self.platform.rails();
        let rail = self.rail(place, step.rail() as usize);
        match step {
            Step::Start { .. } => known && rail.is_still(),
            Step::Wait { .. } => known && rail.is_moving(),
        }
    }

    // Is step k in form? At the script's end, does every rail stand?
    fn form_at(&self, k: usize) -> bool
        ensures { Decides result (InForm self.now.platform.now.rails (value_of self.now.first.now.values) self.now.script.now k) }
    {
        match self.script.get(k) {
            Some(step) => k < STEPS && self.in_order(k, *step),
            None => self.all_still(k),
        }
    }

    // The first step out of form.
    pub(crate) fn misstep(&self) -> Option<usize>
        ensures { MatchOption result (Formed self.now.platform.now.rails (value_of self.now.first.now.values) self.now.script.now) (λ k. Misstep self.now.platform.now.rails (value_of self.now.first.now.values) self.now.script.now k) }
    {
        (0..self.script.len() + 1).find(|k| !self.form_at(*k))
    }
}
