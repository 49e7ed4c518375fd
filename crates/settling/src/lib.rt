// Settling a platform: one rest mode for each unit, so that the demands are met at the least cost.
#![tactic(auto)]

pub mod answer;
pub mod cost;
mod draft;
mod search;
pub mod theorems;
pub mod total;
mod windows;

pub use answer::{Settled, settle};
pub use cost::{Cost, Draw, HeatThenDraw};
pub use theorems::{hopeless_exactly, settled_once};
pub use total::cost_of;
