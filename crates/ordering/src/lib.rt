// A safe order of the rails that change from one mix to another, with a table of which sets of them can be moved first.
#![tactic(auto)]

pub mod change;
pub mod fault;
mod fill;
pub mod find;
pub mod order;
mod read;
mod search;
mod trial;

pub use change::Change;
pub use fault::OrderFault;
pub use order::Order;
