// Settling: the first of the cheapest choices that fit, or why there is none.
ghost use Rattle.std.specs.Prelude.{◌≡◌, ℕ, ◌<◌, MatchOption};
ghost use Rattle.platform.specs.Units.{bounds_at, value_of};
ghost use Rattle.settling.specs.Choices.{units_of, Known};
ghost use Rattle.settling.specs.Settling.{UnknownAt, Settles};

use crate::cost::Cost;
use crate::draft::Draft;
use crate::search::{Task, search};
use crate::windows::demanded;
use faults::SettleFault;
use platform::{Bounds, Mix, Platform};
use sheets::Demand;

// A choice, with the window that it leaves each rail, the windows' lows, and its cost.
// Fixed memory: settling does not allocate, and a platform has 24 units and 24 rails at most.
#[derive(Clone, Copy, Debug, PartialEq, Eq)]
pub struct Settled<C> {
    pub modes: [u8; 24],
    pub windows: [Bounds; 24],
    pub targets: Mix,
    pub cost: C,
}

// The place of the first demand on a rail that the platform lacks.
fn first_unknown(rails: u8, demands: &[Demand]) -> Option<usize>
    ensures { MatchOption result (Known rails demands.now) (λ i. UnknownAt rails demands.now i) }
{
    demands.iter().position(|demand| demand.rail >= rails)
}

// The low of each window.
fn lows(windows: [Bounds; 24]) -> Mix
    ensures { (r : ℕ) → r < 24 → value_of result.values r ≡ (bounds_at windows r).low }
{
    Mix {
        values: windows.map(|window| window.low),
    }
}

// The least choice, what it leaves each rail and what it costs.
pub fn settle<C: Cost>(platform: &Platform, demands: &[Demand]) -> Result<Settled<C>, SettleFault>
    ensures { Settles C.toll platform.now.rails (units_of platform.now) demands.now result }
{
    if let Some(i) = first_unknown(platform.rails(), demands) {
        return Err(SettleFault::UnknownRail { line: i + 1 });
    }
    let task = Task { platform, demands };
    let draft = Draft {
        modes: [0; 24],
        windows: demanded(demands),
        cost: C::nothing(),
    };
    let Draft {
        modes,
        windows,
        cost,
    } = search(task, 0, draft, None).ok_or(SettleFault::NoChoice)?;
    Ok(Settled {
        modes,
        windows,
        targets: lows(windows),
        cost,
    })
}
