// The ramp bench: its rails go a step further at each poll of any of them.
ghost use Rattle.std.specs.Prelude.{◌≡◌, ◌≤◌, unwrap_or};

use crate::bench::Bench;
use crate::fault::BoardFault;
use crate::rail::Rail;

pub type RampBench = Bench<RampRail>;

impl Bench<RampRail> {
    // On the type itself, since the constant of a generic impl stands in no other constant, pattern or length.
    pub const CEILING: u16 = 65535;
}

// One rail: its value, its goal while it is pending, and the rate by which a poll moves it, in mV.
#[derive(Clone, Copy)]
pub struct RampRail {
    value: u16,
    goal: Option<u16>,
    rate: u16,
    ghost rated: { (1 ≤ rate) × (rate ≤ 65535) },
    ghost low: { (value ≤ 65535) × (unwrap_or goal value ≤ 65535) },
}

impl RampRail {
    ghost use Rattle.boards.specs.Ramp.{target_of, towards};

    // Where it is to be: at its goal, or where it rests.
    fn target(self) -> u16
        ensures { result ≡ target_of self }
    {
        self.goal.unwrap_or(self.value)
    }

    // Its value after a step of its rate towards its target.
    fn stepped(self) -> u16
        ensures { result ≡ towards self.value (target_of self) self.rate }
    {
        let up = self.value.saturating_add(self.rate);
        let down = self.value.saturating_sub(self.rate);
        self.target().min(up).max(down)
    }
}

impl Rail for RampRail {
    ghost use Rattle.boards.specs.Making.{Within};
    ghost use Rattle.boards.specs.Ramp.{meaning_of, blank, Rests, Sent, Asked, Moved};
    ghost use Rattle.std.proofs.Common.{rules};

    const CEILING: u16 = RampBench::CEILING;

    // A rate in mV.
    type Setting = u16;

    ghost CEILING = { 65535 };

    ghost patience = { 65534 };

    ghost meaning = { meaning_of };

    ghost blank = { blank };

    ghost unset = { 0 };

    ghost suits = { Within 1 65535 };

    ghost rests = { Rests };

    ghost sent = { Sent };

    ghost asked = { Asked };

    ghost passed = { Moved };

    ghost stands = { Prim.search rules };

    fn rest(rate: u16, mv: u16) -> Result<RampRail, BoardFault> {
        if rate == 0 {
            return Err(BoardFault::OutOfRange);
        }
        Ok(RampRail {
            value: mv,
            goal: None,
            rate,
        })
    }

    fn start(mut self, goal: u16) -> Result<RampRail, BoardFault> {
        self.goal = Some(goal);
        Ok(self)
    }

    fn poll(self) -> (RampRail, bool) {
        let mut moved = self;
        moved.pass();
        let arrived = moved.value == moved.target();
        if arrived {
            moved.goal = None;
        }
        (moved, arrived)
    }

    fn pass(&mut self) {
        self.value = self.stepped();
    }

    fn look(self) -> (u16, bool) {
        (self.value, self.goal.is_some())
    }
}
