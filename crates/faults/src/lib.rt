// Why a call is refused: the faults of sheets, platforms, settling and listings, each inside the one above it.
#![tactic(auto)]

pub mod listing;
pub mod number;
pub mod platform;
pub mod settle;
pub mod sheet;

pub use listing::ListingFault;
pub use number::Fault;
pub use platform::PlatformFault;
pub use settle::SettleFault;
pub use sheet::SheetFault;
