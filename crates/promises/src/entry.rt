// What is noted of a call.
use histories::Outcome;

// Its outcome, and the board's values after it in mV, by rail.
#[derive(Clone, Copy, Debug, PartialEq, Eq)]
pub struct Entry {
    pub outcome: Outcome,
    pub values: [u16; 24],
}
