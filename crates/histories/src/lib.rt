// Histories of runs: what a script makes of the rails, what calls make of a run and its board, and what holds of all of it.
#![tactic(auto)]

pub mod fault;
pub mod rail;
pub mod run;
pub mod step;
pub mod theorems;

pub use fault::RunFault;
pub use rail::Rail;
pub use run::{Answer, Call, Direction, Outcome};
pub use step::Step;
pub use theorems::histories_stand;
