// Histories of runs as opening asks for them: of script, mixes and board, over a board seen as one likes. What stands in the crate histories is the landed theory of them.
#![tactic(auto)]

pub mod end;
pub mod theorems;

pub use end::End;
pub use theorems::openings_stand;
