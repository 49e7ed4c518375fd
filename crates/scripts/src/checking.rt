// The check of a script from a first mix.
ghost use Rattle.platform.specs.Units.{value_of};
ghost use Rattle.platform.specs.Making.{model_of};
ghost use Rattle.scripts.specs.Checking.{Checked};

use crate::fault::ScriptFault;
use crate::proposal::Proposal;
use crate::safety::BadStep;
use openings::End;
use platform::Mix;

impl Proposal<'_> {
    // The last mix of a script that is in form, begins and ends at rest and is safe at every step; or the first of these that fails.
    pub fn check(&self) -> Result<Mix, ScriptFault>
        ensures { Checked (model_of self.now.platform.now) (value_of self.now.first.now.values) self.now.script.now result }
    {
        if let Some(step) = self.misstep() {
            return Err(ScriptFault::OutOfForm { step });
        }
        if let Some(unit) = self.first_restless() {
            let end = End::First;
            return Err(ScriptFault::Restless { end, unit });
        }
        let last = self.last();
        if let Some(unit) = self.last_restless(last) {
            let end = End::Last;
            return Err(ScriptFault::Restless { end, unit });
        }
        if let Some(BadStep { step, bad }) = self.unsafe_step() {
            let (unit, values) = (bad.unit, bad.values);
            return Err(ScriptFault::Unsafe { step, unit, values });
        }
        Ok(last)
    }
}
