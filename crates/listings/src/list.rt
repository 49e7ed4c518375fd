// From the input's bytes to the bytes of its listing.
ghost use Rattle.std.specs.Prelude.{string_bytes};
ghost use Rattle.answers.specs.Sequels.{Exactly};
ghost use Rattle.faults.specs.Numbers.{listing_refusal};
ghost use Rattle.platform.specs.Inquiries.{inquiry_of};
ghost use Rattle.listings.specs.Listings.{ListsAsked, Lists};

use crate::input::cut;
use crate::write::write_choice;
use faults::ListingFault;
use platform::{Inquiry, read_inquiry};
use settling::{Draw, HeatThenDraw, Settled, settle};
use std::alloc::Global;

// The listing of what is asked.
fn list_inquiry(heap: Global, inquiry: &Inquiry) -> Result<String, ListingFault>
    ensures { Exactly string_bytes listing_refusal (ListsAsked (inquiry_of inquiry.now)) result }
{
    let platform = &inquiry.platform;
    let demands = &inquiry.sheets.demands;
    let draw: Settled<Draw> = settle(platform, demands)?;
    let heat: Settled<HeatThenDraw> = settle(platform, demands)?;
    let mut out = String::new(heap);
    write_choice(&mut out, platform, &draw)?;
    write_choice(&mut out, platform, &heat)?;
    Ok(out)
}

// The listing by draw and then by heat of the four sheets in the input, or the first refusal.
pub fn listing_of(heap: Global, input: &[u8]) -> Result<String, ListingFault>
    ensures { Exactly string_bytes listing_refusal (Lists input.now) result }
{
    let four = cut(input)?;
    let inquiry = read_inquiry(heap, four)?;
    let text = list_inquiry(heap, &inquiry)?;
    Ok(text)
}
