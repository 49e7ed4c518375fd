// What is asked of a run, and what comes of it.
use crate::fault::RunFault;

// Forward goes to the script's last mix, backward to the first.
#[derive(Clone, Copy, Debug, PartialEq, Eq)]
pub enum Direction {
    Forward,
    Backward,
}

#[derive(Clone, Copy, Debug, PartialEq, Eq)]
pub enum Call {
    Advance,
    Turn,
    Close,
}

// The place has moved by one, the rail is still on its way, or the run is at its end.
#[derive(Clone, Copy, Debug, PartialEq, Eq)]
pub enum Answer {
    Moved,
    Waiting,
    Arrived,
}

// An advance's answer, a granted turn or close, or a refusal: three names say it plainer than an Option in a Result.
#[derive(Clone, Copy, Debug, PartialEq, Eq)]
pub enum Outcome {
    Answered(Answer),
    Granted,
    Refused(RunFault),
}
