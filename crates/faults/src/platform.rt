// What may be wrong with a platform.
ghost use Rattle.std.specs.Prelude.{◌≡◌};
ghost use Rattle.faults.specs.declared.platform.PlatformFault.TheVariants.{Sheet, Memory};

use crate::sheet::SheetFault;
use std::alloc::{AllocError, AllocFailed};

// A fault of one of its sheets; a unit with two pins on one rail; a rail with no driver or several; want of memory.
#[derive(Clone, Copy, Debug, PartialEq, Eq)]
pub enum PlatformFault {
    Sheet(SheetFault),
    Twice { unit: usize },
    Driver { rail: usize },
    Memory,
}

impl From<SheetFault> for PlatformFault {
    ghost from_gives = { λ e r. r ≡ Sheet e };

    fn from(e: SheetFault) -> PlatformFault {
        PlatformFault::Sheet(e)
    }
}

// The library has two errors for want of memory, and `?` asks for a conversion of each.
impl From<AllocError> for PlatformFault {
    ghost from_gives = { λ _ r. r ≡ Memory };

    fn from(_e: AllocError) -> PlatformFault {
        PlatformFault::Memory
    }
}

impl<T: Drop> From<AllocFailed<T>> for PlatformFault {
    ghost from_gives = { λ _ r. r ≡ Memory };

    fn from(_e: AllocFailed<T>) -> PlatformFault {
        PlatformFault::Memory
    }
}
