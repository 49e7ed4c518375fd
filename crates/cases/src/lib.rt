// Worked cases of the definitions, in one table.
#![tactic(auto)]

pub mod table;

pub use table::cases_hold;
