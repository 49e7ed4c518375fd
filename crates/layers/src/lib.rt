// Layers: boards that stand over any other board.
#![tactic(auto)]

pub mod steady;

pub use steady::Steady;
