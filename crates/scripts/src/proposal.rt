// A script from a first mix, as it is proposed for a platform.
ghost use Rattle.std.specs.Prelude.{◌≡◌};
ghost use Rattle.platform.specs.Units.{value_of};
ghost use Rattle.histories.specs.Rails.{after};

use crate::rails::rail_at;
use histories::{Rail, Step};
use platform::{Mix, Platform};

#[derive(Clone, Copy)]
pub struct Proposal<'a> {
    pub platform: &'a Platform,
    pub first: &'a Mix,
    pub script: &'a [Step],
}

impl Proposal<'_> {
    // A rail after the first `place` steps.
    pub(crate) fn rail(&self, place: usize, rail: usize) -> Rail
        ensures { result ≡ after (value_of self.now.first.now.values) self.now.script.now place rail }
    {
        rail_at(self.first, self.script, place, rail)
    }
}
