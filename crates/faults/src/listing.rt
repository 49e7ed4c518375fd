// What may keep a listing from being made.
ghost use Rattle.std.specs.Prelude.{◌≡◌};
ghost use Rattle.faults.specs.declared.listing.ListingFault.TheVariants.{Platform, Settle, Memory};

use crate::platform::PlatformFault;
use crate::settle::SettleFault;
use std::fmt;

// The whole input is too long; it has too few empty lines; its platform or its settling is refused; want of memory.
#[derive(Clone, Copy, Debug, PartialEq, Eq)]
pub enum ListingFault {
    Input,
    Parts,
    Platform(PlatformFault),
    Settle(SettleFault),
    Memory,
}

impl From<PlatformFault> for ListingFault {
    ghost from_gives = { λ e r. r ≡ Platform e };

    fn from(e: PlatformFault) -> ListingFault {
        ListingFault::Platform(e)
    }
}

impl From<SettleFault> for ListingFault {
    ghost from_gives = { λ e r. r ≡ Settle e };

    fn from(e: SettleFault) -> ListingFault {
        ListingFault::Settle(e)
    }
}

impl From<fmt::Error> for ListingFault {
    ghost from_gives = { λ _ r. r ≡ Memory };

    fn from(_e: fmt::Error) -> ListingFault {
        ListingFault::Memory
    }
}
