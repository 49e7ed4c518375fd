// What opening checks of a script before it looks at a board: its form, the rest of its first and last mix, and its safety step by step.
#![tactic(auto)]

pub mod checking;
pub mod fault;
mod form;
pub mod proposal;
pub mod rails;
mod rest;
mod safety;

pub use fault::ScriptFault;
pub use proposal::Proposal;
pub use rails::rail_at;
