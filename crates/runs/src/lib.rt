// Runs: a board is worked through a script, forwards and back.
#![tactic(auto)]

mod advance;
mod begin;
pub mod calls;
pub mod fault;
pub mod journey;
pub mod open;
mod place;
pub mod run;
mod steps;
mod suit;
mod turn;
mod work;

pub use fault::OpenFault;
pub use histories::RunFault;
pub use journey::Journey;
pub use run::Run;
