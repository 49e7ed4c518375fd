// Makes a platform from its sheets.
ghost use Rattle.answers.specs.Sequels.{Exactly};
ghost use Rattle.sheets.specs.Sets.{rows_of};
ghost use Rattle.faults.specs.Numbers.{platform_refusal};
ghost use Rattle.platform.specs.Making.{model_of, Makes};

use crate::build::{rails_of, units_from};
use crate::check::{lowest_twice, lowest_undriven};
use crate::platform::Platform;
use faults::PlatformFault;
use sheets::Sheets;
use std::alloc::Global;

impl Platform {
    // The platform that the sheets describe, unless two pins of a unit are on one rail, or a rail has no driver or several.
    pub fn new(heap: Global, sheets: &Sheets) -> Result<Platform, PlatformFault>
        ensures { Exactly model_of platform_refusal (Makes (rows_of sheets.now)) result }
    {
        let units = units_from(heap, sheets)?;
        if let Some(unit) = lowest_twice(&units) {
            return Err(PlatformFault::Twice { unit });
        }
        let rails = rails_of(&sheets.pins);
        if let Some(rail) = lowest_undriven(&units, rails) {
            return Err(PlatformFault::Driver { rail });
        }
        Ok(Platform {
            rails: rails as u8,
            units,
        })
    }
}
