// Platforms: rails, units, pins, modes, mixes and their rules.
#![tactic(auto)]

mod build;
mod check;
pub mod inquiry;
pub mod make;
pub mod parts;
pub mod platform;
pub mod read;
pub mod rest;
pub mod unit;

pub use inquiry::{Inquiry, read_inquiry};
pub use parts::{Bounds, Mix, Mode, Pin};
pub use platform::Platform;
pub use unit::Unit;
