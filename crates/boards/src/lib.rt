// Boards: what a board may do, and a bench of rails of one make: the ramp bench and the relay board.
#![tactic(auto)]

pub mod bench;
pub mod fault;
pub mod meaning;
pub mod rail;
pub mod ramp;
pub mod relay;

pub use bench::Bench;
pub use fault::BoardFault;
pub use meaning::Board;
pub use rail::Rail;
pub use ramp::{RampBench, RampRail};
pub use relay::{RelayBoard, RelayRail};
