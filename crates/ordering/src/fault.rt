// Why there is no order.
ghost use Rattle.std.specs.Prelude.{◌≡◌};
ghost use Rattle.ordering.specs.Answers.{order_number};

use openings::End;

// A mix in which a unit does not rest; more than 16 changed rails; a table with fewer bytes than they have sets;
// or every order is unsafe at some step.
#[derive(Clone, Copy, Debug, PartialEq, Eq)]
pub enum OrderFault {
    Restless { end: End, unit: usize },
    TooMany,
    ShortTable,
    NoOrder,
}

impl OrderFault {
    pub fn number(self) -> u8
        ensures { result ≡ order_number self }
    {
        match self {
            OrderFault::Restless { .. } => 12,
            OrderFault::TooMany => 13,
            OrderFault::ShortTable => 14,
            OrderFault::NoOrder => 15,
        }
    }
}
