// What a fault says of itself: its number, and the sheet and line that it speaks of.
ghost use Rattle.std.specs.Prelude.{◌≡◌};
ghost use Rattle.answers.specs.declared.refusal.Refusal.{Refusal};
ghost use Rattle.faults.specs.Numbers.{sheet_refusal, platform_refusal, settle_refusal, listing_refusal};

use crate::listing::ListingFault;
use crate::platform::PlatformFault;
use crate::settle::SettleFault;
use crate::sheet::SheetFault;
use answers::Refusal;

pub trait Fault {
    ghost says: { Self → Refusal };

    fn refusal(&self) -> Refusal
        ensures { result ≡ says self.now };

    fn number(&self) -> u8
        ensures { result ≡ (says self.now).number }
    {
        self.refusal().number
    }

    fn sheet(&self) -> u8
        ensures { result ≡ (says self.now).sheet }
    {
        self.refusal().sheet
    }

    fn line(&self) -> usize
        ensures { result ≡ (says self.now).line }
    {
        self.refusal().line
    }
}

impl Fault for SheetFault {
    ghost says = { sheet_refusal };

    fn refusal(&self) -> Refusal {
        match *self {
            SheetFault::TooLong { sheet } => Refusal::new(1, sheet, 0),
            SheetFault::Names { sheet } => Refusal::new(2, sheet, 0),
            SheetFault::Shape { sheet, line } => Refusal::new(3, sheet, line),
            SheetFault::Field { sheet, line } => Refusal::new(4, sheet, line),
            SheetFault::Turn { sheet, line } => Refusal::new(5, sheet, line),
            SheetFault::Crossed { sheet, line } => Refusal::new(6, sheet, line),
            SheetFault::Short { sheet, line } => Refusal::new(7, sheet, line),
            SheetFault::Memory => Refusal::new(0, 0, 0),
        }
    }
}

impl Fault for PlatformFault {
    ghost says = { platform_refusal };

    fn refusal(&self) -> Refusal {
        match self {
            PlatformFault::Sheet(e) => e.refusal(),
            PlatformFault::Twice { .. } => Refusal::new(8, 0, 0),
            PlatformFault::Driver { .. } => Refusal::new(9, 0, 0),
            PlatformFault::Memory => Refusal::new(0, 0, 0),
        }
    }
}

impl Fault for SettleFault {
    ghost says = { settle_refusal };

    fn refusal(&self) -> Refusal {
        match *self {
            SettleFault::UnknownRail { line } => Refusal::new(10, 3, line),
            SettleFault::NoChoice => Refusal::new(11, 0, 0),
        }
    }
}

impl Fault for ListingFault {
    ghost says = { listing_refusal };

    fn refusal(&self) -> Refusal {
        match self {
            ListingFault::Input => Refusal::new(1, 0, 0),
            ListingFault::Parts => Refusal::new(23, 0, 0),
            ListingFault::Platform(e) => e.refusal(),
            ListingFault::Settle(e) => e.refusal(),
            ListingFault::Memory => Refusal::new(0, 0, 0),
        }
    }
}
