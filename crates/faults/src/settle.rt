// Why a platform is not settled.

// A demand on a rail that the platform lacks, with the demand's line on sheet 3: its place in the list and one more; or no choice of modes fits.
#[derive(Clone, Copy, Debug, PartialEq, Eq)]
pub enum SettleFault {
    UnknownRail { line: usize },
    NoChoice,
}
