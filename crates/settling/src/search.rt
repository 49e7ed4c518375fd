// The search through the choices in their order, unit by unit and mode by mode.
ghost use Rattle.std.specs.Prelude.{◌≤◌, length, Decides};
ghost use Rattle.settling.specs.Choices.{units_of};
ghost use Rattle.settling.specs.Searching.{Reached, Stands, Found, Earlier, Searched};

use crate::cost::Cost;
use crate::draft::Draft;
use crate::windows::all_open;
use platform::Platform;
use sheets::{Demand, Kind};

// What is to be settled. The search reads the platform; the demands have gone into the drafts' windows.
#[derive(Clone, Copy)]
pub(crate) struct Task<'p, 'd> {
    pub(crate) platform: &'p Platform,
    pub(crate) demands: &'d [Demand],
}

// Does what was found cost no more than this already?
fn reached<C: Cost>(best: Option<Draft<C>>, cost: C) -> bool
    ensures { Decides result (Reached C.toll best cost) }
{
    best.is_some_and(|found| found.cost.at_most(cost))
}

// The best of what was found and of the choices that begin as the draft does.
pub(crate) fn search<C: Cost>(
    task: Task,
    at: usize,
    draft: Draft<C>,
    best: Option<Draft<C>>,
) -> Option<Draft<C>>
    requires within { at ≤ length (units_of task.platform.now) }
    requires stands { Stands C.toll (units_of task.platform.now) task.demands.now at draft }
    requires found { Found C.toll (units_of task.platform.now) task.demands.now best }
    requires place { Earlier at best draft.modes }
    ensures { Searched C.toll (units_of task.entry.platform.now) task.entry.demands.now at draft.modes best result }
{
    if !all_open(draft.windows) {
        return best;
    }
    if reached(best, draft.cost) {
        return best;
    }
    let Some(unit) = task.platform.units().get(at) else {
        return Some(draft);
    };
    let mut found = best;
    for (mode, chosen) in unit.modes.iter().enumerate() {
        if matches!(chosen.kind, Kind::Rest) {
            found = search(task, at + 1, draft.extended(unit, at, mode), found);
        }
    }
    found
}
