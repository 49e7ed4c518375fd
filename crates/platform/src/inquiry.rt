// A platform with the customer's demands on it, read from the four sheets.
ghost use Rattle.std.specs.Prelude.{◌≡◌};
ghost use Rattle.answers.specs.Sequels.{Exactly};
ghost use Rattle.faults.specs.Numbers.{platform_refusal};
ghost use Rattle.sheets.specs.Fours.{four_of};
ghost use Rattle.platform.specs.Inquiries.{inquiry_of, Inquires};

use crate::platform::Platform;
use faults::PlatformFault;
use sheets::{FourSheets, Sheets, read_sheets};
use std::alloc::Global;

#[derive(Drop)]
pub struct Inquiry {
    pub platform: Platform,
    pub sheets: Sheets,
}

// The platform and the demands of the four sheets, or the first fault: those of all sheets come before the platform's own.
pub fn read_inquiry(heap: Global, four: FourSheets) -> Result<Inquiry, PlatformFault>
    ensures { let f = four_of four.entry in Exactly inquiry_of platform_refusal (Inquires f.pins f.modes f.bounds f.demands) result }
{
    let sheets = read_sheets(heap, four)?;
    let platform = Platform::new(heap, &sheets)?;
    Ok(Inquiry { platform, sheets })
}
