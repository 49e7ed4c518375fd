// Listings: from the bytes of the input to the bytes of the output.
#![tactic(auto)]

mod input;
pub mod list;
pub mod report;
mod write;

pub use list::listing_of;
pub use report::{Report, report_on};
