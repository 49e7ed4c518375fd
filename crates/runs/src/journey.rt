// What an open run holds.
ghost use Rattle.std.specs.Prelude.{◌≡◌, ◌≤◌, length};
ghost use Rattle.platform.specs.Units.{value_of};
ghost use Rattle.runs.specs.Steps.{steps_of};
ghost use Rattle.runs.specs.Journeys.{OnRails, Recorded};

use crate::steps::Steps;
use histories::{Direction, Rail};
use platform::Mix;

// Its own copy of the first mix and the script, its place and direction, and a record of each rail as the steps done leave it.
#[derive(Clone, Copy)]
pub struct Journey {
    pub(crate) rails: u8,
    pub(crate) first: Mix,
    pub(crate) steps: Steps,
    pub(crate) place: usize,
    pub(crate) direction: Direction,
    // Fixed memory: a run works a board without a heap.
    pub(crate) records: [Rail; 24],
    ghost few: { rails ≤ 24 },
    ghost within: { place ≤ length (steps_of steps) },
    ghost sized: { length records ≡ 24 },
    ghost known: { OnRails rails (steps_of steps) },
    ghost recorded: { Recorded rails (value_of first.values) (steps_of steps) place records },
}
