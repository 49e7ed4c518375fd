// Reads a sheet of any layout, line by line: its rows, or its first fault.
#![tactic(auto)]

pub mod layout;
pub mod read;

pub use layout::Layout;
pub use read::{LONGEST, read_sheet, sheet_laws};
