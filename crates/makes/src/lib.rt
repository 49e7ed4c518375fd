// What each make answers after a start, whatever is called since; and worked cases.
#![tactic(auto)]

pub mod cases;
pub mod laws;

pub use cases::{cases_stand, ramp_case, steady_case};
pub use laws::{layers_stand, makes_mean, makes_stand};
