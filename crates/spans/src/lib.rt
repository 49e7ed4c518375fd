// Safe spans: whether a unit is in some mode at every mix that spans allow, and the first mix at which it is not.
#![tactic(auto)]

pub mod judge;
pub mod rails;
mod search;
pub mod theorems;
mod trial;

pub use judge::{BadUnit, NoUnit, first_bad, lowest_bad};
pub use rails::lowest_bad_on;
pub use theorems::{one_rail, worked_cases};
