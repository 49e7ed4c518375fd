// The relay board: a rail waits out its delay, and then jumps to its target.
ghost use Rattle.std.specs.Prelude.{◌≡◌, ◌≤◌};

use crate::bench::Bench;
use crate::fault::BoardFault;
use crate::rail::Rail;

pub type RelayBoard = Bench<RelayRail>;

impl Bench<RelayRail> {
    // On the type itself, since the constant of a generic impl stands in no other constant, pattern or length.
    pub const CEILING: u16 = 57000;
}

// Where a pending rail is to be, in mV, and how many no answers are left until it is there.
#[derive(Clone, Copy)]
struct Going {
    target: u16,
    left: u8,
    ghost few: { left ≤ 255 },
    ghost low: { target ≤ 57000 },
}

// One rail: its value in mV, how many polls after a start are answered no, and where it is going while it is pending.
#[derive(Clone, Copy)]
pub struct RelayRail {
    value: u16,
    delay: u8,
    going: Option<Going>,
    ghost delayed: { delay ≤ 255 },
    ghost low: { value ≤ 57000 },
}

impl Rail for RelayRail {
    ghost use Rattle.boards.specs.Making.{Within};
    ghost use Rattle.boards.specs.Rails.{Same};
    ghost use Rattle.boards.specs.Relay.{meaning_of, blank, Rests, Sent, Asked};
    ghost use Rattle.std.proofs.Common.{rules};

    const CEILING: u16 = RelayBoard::CEILING;

    // A delay in polls.
    type Setting = u8;

    ghost CEILING = { 57000 };

    ghost patience = { 255 };

    ghost meaning = { meaning_of };

    ghost blank = { blank };

    ghost unset = { 0 };

    ghost suits = { Within 0 255 };

    ghost rests = { Rests };

    ghost sent = { Sent };

    ghost asked = { Asked };

    ghost passed = { Same };

    ghost stands = { Prim.search rules };

    fn rest(delay: u8, mv: u16) -> Result<RelayRail, BoardFault> {
        if mv > Self::CEILING {
            return Err(BoardFault::OutOfRange);
        }
        Ok(RelayRail {
            value: mv,
            delay,
            going: None,
        })
    }

    fn start(mut self, goal: u16) -> Result<RelayRail, BoardFault> {
        if goal > Self::CEILING {
            return Err(BoardFault::OutOfRange);
        }
        self.going = Some(Going {
            target: goal,
            left: self.delay,
        });
        Ok(self)
    }

    fn poll(mut self) -> (RelayRail, bool) {
        let Some(Going { target, left }) = self.going else {
            return (self, true);
        };
        if left > 0 {
            self.going = Some(Going {
                target,
                left: left - 1,
            });
            return (self, false);
        }
        self.value = target;
        self.going = None;
        (self, true)
    }

    // Nothing, so that a poll is of one rail alone.
    fn pass(&mut self) {}

    fn look(self) -> (u16, bool) {
        (self.value, self.going.is_some())
    }
}
