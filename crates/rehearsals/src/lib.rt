// Rehearsals: a run is opened on a board and a list of calls is made on it, with the whole-run promise.
#![tactic(auto)]

pub mod calling;
pub mod running;

pub use calling::make_call;
pub use running::rehearse;
