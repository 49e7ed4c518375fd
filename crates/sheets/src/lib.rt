// The four sheets of a board, read from bytes.
#![tactic(auto)]

pub mod bounds;
pub mod demands;
pub mod four;
pub mod letter;
pub mod modes;
pub mod pins;
pub mod read;
pub mod rows;
pub mod set;
mod turn;

pub use bounds::{BoundSheet, read_bounds};
pub use demands::{DemandSheet, read_demands};
pub use four::FourSheets;
pub use letter::UnknownLetter;
pub use modes::{ModeSheet, read_modes};
pub use pins::{PinSheet, read_pins, units_of};
pub use read::{read_sheets, sheets_read_back};
pub use rows::{BoundRow, Demand, Kind, ModeRow, PinRow, Place, Way};
pub use set::Sheets;
