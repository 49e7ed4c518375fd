// What may be wrong with a sheet.
ghost use Rattle.std.specs.Prelude.{◌≡◌};
ghost use Rattle.faults.specs.declared.sheet.SheetFault.TheVariants.{Memory};

use std::alloc::{AllocError, AllocFailed};

// The sheet by its number, and its line counted from the names line, which is 0.
// A number and no kind: a sheet of any layout may be read, and its number is what a refusal shows.
#[derive(Clone, Copy, Debug, PartialEq, Eq)]
pub enum SheetFault {
    TooLong { sheet: u8 },
    Names { sheet: u8 },
    Shape { sheet: u8, line: usize },
    Field { sheet: u8, line: usize },
    Turn { sheet: u8, line: usize },
    Crossed { sheet: u8, line: usize },
    Short { sheet: u8, line: usize },
    Memory,
}

// The library has two errors for want of memory, and `?` asks for a conversion of each.
impl From<AllocError> for SheetFault {
    ghost from_gives = { λ _ r. r ≡ Memory };

    fn from(_e: AllocError) -> SheetFault {
        SheetFault::Memory
    }
}

impl<T: Drop> From<AllocFailed<T>> for SheetFault {
    ghost from_gives = { λ _ r. r ≡ Memory };

    fn from(_e: AllocFailed<T>) -> SheetFault {
        SheetFault::Memory
    }
}
