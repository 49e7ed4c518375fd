// Whether spans are safe for one unit, and for all units.
ghost use Rattle.std.specs.Prelude.{Decides, MatchOption};
ghost use Rattle.std.specs.Fn.{FnReturnsAt};
ghost use Rattle.platform.specs.Making.{model_of};
ghost use Rattle.spans.specs.Judging.{Judges, AllSafe, LowestBad};
ghost use Rattle.spans.specs.Picking.{NonePicked, LowestPicked};
ghost use Rattle.spans.specs.Searching.{Open};

use crate::search::first_unheld;
use platform::{Bounds, Platform, Unit};

// The platform has no unit of this number.
#[derive(Clone, Copy, Debug, PartialEq, Eq)]
pub struct NoUnit;

// A unit with the values of its pins at its first bad mix, 0 past its last pin.
#[derive(Clone, Copy, Debug, PartialEq, Eq)]
pub struct BadUnit {
    pub unit: usize,
    pub values: [u16; 4],
}

// Is no span empty? Those past the last rail are not read.
fn all_open(platform: &Platform, spans: &[Bounds; 24]) -> bool
    ensures { Decides result (Open platform.now.rails spans.now) }
{
    spans[..platform.rails() as usize]
        .iter()
        .all(|span| span.is_open())
}

// Platform and spans come apart from every caller: a struct of both would only be taken apart again.
// None if the spans are safe for the unit, or else its first bad values: least on pin 0, then on pin 1, and so on, and 0 past its last pin.
pub fn first_bad(
    platform: &Platform,
    unit: usize,
    spans: &[Bounds; 24],
) -> Result<Option<[u16; 4]>, NoUnit>
    ensures { Judges (model_of platform.now) spans.now unit result }
{
    let unit = platform.units().get(unit).ok_or(NoUnit)?;
    if !all_open(platform, spans) {
        return Ok(None);
    }
    Ok(first_unheld(unit, spans))
}

// The lowest of the picked units for which the spans are not safe, with its first bad values.
pub(crate) fn lowest_picked<F: Fn(&Unit) -> bool>(
    platform: &Platform,
    spans: &[Bounds; 24],
    picks: F,
) -> Option<BadUnit>
    requires { F.IsAlwaysCallable picks }
    ensures { MatchOption result (NonePicked (FnReturnsAt F.Fn picks) platform.now spans.now) (λ b. LowestPicked (FnReturnsAt F.Fn picks) platform.now spans.now b.unit b.values) }
{
    if !all_open(platform, spans) {
        return None;
    }
    let units = platform.units();
    for (number, unit) in units.iter().enumerate() {
        if picks(unit) {
            if let Some(values) = first_unheld(unit, spans) {
                return Some(BadUnit {
                    unit: number,
                    values,
                });
            }
        }
    }
    None
}

// The lowest unit for which the spans are not safe, with its first bad values.
pub fn lowest_bad(platform: &Platform, spans: &[Bounds; 24]) -> Option<BadUnit>
    ensures { MatchOption result (AllSafe (model_of platform.now) spans.now) (λ b. LowestBad (model_of platform.now) spans.now b.unit b.values) }
{
    lowest_picked(platform, spans, |_| true)
}
