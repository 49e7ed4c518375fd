// How an open run goes from one place of its script to the next.
ghost use Rattle.std.specs.Prelude.{◌≡◌, ◌+◌, ◌-◌, ◌<◌, ◌≤◌, Some, length, slice_set};
ghost use Rattle.platform.specs.Units.{value_of};
ghost use Rattle.histories.specs.declared.run.Direction.TheVariants.{Forward, Backward};
ghost use Rattle.histories.specs.Rails.{after};
ghost use Rattle.runs.specs.Journeys.{Recorded, current};
ghost use Rattle.runs.specs.Working.{script_of, Same};

use crate::journey::Journey;
use histories::{Direction, Rail, Step};
use scripts::rail_at;

impl Journey {
    // The steps of the script.
    pub(crate) fn script(&self) -> &[Step]
        ensures { result.now ≡ script_of self.now }
    {
        self.steps.as_slice()
    }

    // The step that an advance is about, if any is left.
    pub(crate) fn current(&self) -> Option<Step>
        ensures { result ≡ current (script_of self.now) self.now.place self.now.direction }
    {
        let at = match self.direction {
            Direction::Forward => self.place,
            Direction::Backward => self.place.checked_sub(1)?,
        };
        self.script().get(at).copied()
    }

    // Moves to another place, with the one record that differs there.
    fn step_to(&mut self, place: usize, rail: u8, state: Rail)
        requires rail { rail < self.old.rails }
        requires place { place ≤ length (script_of self.old) }
        requires recorded { Recorded self.old.rails (value_of self.old.first.values) (script_of self.old) place (slice_set self.old.records rail state) }
        ensures same { Same self.old self.new }
        ensures place { self.new.place ≡ place }
        ensures direction { self.new.direction ≡ self.old.direction }
    {
        let record = &mut self.records[rail as usize];
        *record = state;
        self.place = place;
    }

    // Goes on over the step at the place.
    pub(crate) fn go_on(&mut self, step: Step)
        requires { Some step ≡ current (script_of self.old) self.old.place Forward }
        ensures same { Same self.old self.new }
        ensures place { self.new.place ≡ self.old.place + 1 }
        ensures direction { self.new.direction ≡ self.old.direction }
    {
        let rail = step.rail();
        let state = self.records[rail as usize].stepped(step, rail as usize);
        self.step_to(self.place + 1, rail, state);
    }

    // A rail as it was before the last step done.
    pub(crate) fn before(&self, rail: u8) -> Rail
        requires { 0 < self.now.place }
        ensures { result ≡ after (value_of self.now.first.values) (script_of self.now) (self.now.place - 1) rail }
    {
        rail_at(&self.first, self.script(), self.place - 1, rail as usize)
    }

    // Goes back over the last step done.
    pub(crate) fn go_back(&mut self, step: Step)
        requires { Some step ≡ current (script_of self.old) self.old.place Backward }
        ensures same { Same self.old self.new }
        ensures place { self.new.place ≡ self.old.place - 1 }
        ensures direction { self.new.direction ≡ self.old.direction }
    {
        let rail = step.rail();
        let state = self.before(rail);
        self.step_to(self.place - 1, rail, state);
    }
}
