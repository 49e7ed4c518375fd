// Which unit keeps a script's first or last mix from resting, and the last mix.
ghost use Rattle.std.specs.Prelude.{◌≡◌, ◌<◌, ◌≤◌, MatchOption};
ghost use Rattle.platform.specs.Units.{value_of};
ghost use Rattle.platform.specs.Making.{model_of};
ghost use Rattle.histories.specs.Rails.{last_mix};
ghost use Rattle.scripts.specs.Checking.{LastValues, FirstRests, FirstRestless, LastRests, LastRestless};

use crate::proposal::Proposal;
use platform::Mix;
use std::array;

impl Proposal<'_> {
    // The value that the script leaves a rail at, 0 past the platform's last rail.
    fn last_value(&self, rail: usize) -> u16
        ensures own { rail < self.now.platform.now.rails → result ≡ last_mix (value_of self.now.first.now.values) self.now.script.now rail }
        ensures past { self.now.platform.now.rails ≤ rail → result ≡ 0 }
    {
        if rail < self.platform.rails() as usize {
            self.rail(self.script.len(), rail).end()
        } else {
            0
        }
    }

    // The values that the script leaves the rails at.
    pub(crate) fn last(&self) -> Mix
        ensures { LastValues self.now.platform.now.rails (value_of self.now.first.now.values) self.now.script.now result.values }
    {
        let values = array::from_fn(|rail| self.last_value(rail));
        Mix { values }
    }

    // The lowest unit that does not rest at the first mix.
    pub(crate) fn first_restless(&self) -> Option<usize>
        ensures { MatchOption result (FirstRests (model_of self.now.platform.now) (value_of self.now.first.now.values)) (λ u. FirstRestless (model_of self.now.platform.now) (value_of self.now.first.now.values) u) }
    {
        self.platform.lowest_unrested(*self.first)
    }

    // The lowest unit that does not rest at the last mix.
    pub(crate) fn last_restless(&self, last: Mix) -> Option<usize>
        requires { LastValues self.now.platform.now.rails (value_of self.now.first.now.values) self.now.script.now last.values }
        ensures { MatchOption result (LastRests (model_of self.now.platform.now) (value_of self.now.first.now.values) self.now.script.now) (λ u. LastRestless (model_of self.now.platform.now) (value_of self.now.first.now.values) self.now.script.now u) }
    {
        self.platform.lowest_unrested(last)
    }
}
