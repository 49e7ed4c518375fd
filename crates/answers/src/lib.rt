// What a call may answer: checks in their order, one call after another, and what a refusal says.
#![tactic(auto)]

pub mod refusal;

pub use refusal::Refusal;
