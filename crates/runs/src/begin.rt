// How an open run begins: its own copy of the script, and every rail standing at its first value.
ghost use Rattle.platform.specs.Units.{value_of};
ghost use Rattle.openings.specs.Openings.{Formed};
ghost use Rattle.runs.specs.Opening.{Fresh};

use crate::journey::Journey;
use crate::steps::Steps;
use histories::{Direction, Rail};
use scripts::Proposal;

impl Journey {
    // A run at step 0, going forward.
    pub(crate) fn begun(proposal: &Proposal) -> Journey
        requires { Formed proposal.now.platform.now.rails (value_of proposal.now.first.now.values) proposal.now.script.now }
        ensures { Fresh proposal.now.platform.now.rails proposal.now.first.now proposal.now.script.now result }
    {
        let first = *proposal.first;
        Journey {
            rails: proposal.platform.rails(),
            first,
            steps: Steps::copied(proposal.script),
            place: 0,
            direction: Direction::Forward,
            records: first.values.map(|value| Rail::Still { value }),
        }
    }
}
