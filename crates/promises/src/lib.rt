// The whole-run promise: what is owed of every list of calls on a run, and why it holds.
#![tactic(auto)]

pub mod entry;

pub use entry::Entry;
