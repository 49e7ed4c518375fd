// Sheet 0, the pins of the units.
ghost use Rattle.std.specs.Prelude.{◌≡◌, vec_items};
ghost use Rattle.answers.specs.Sequels.{Exactly};
ghost use Rattle.faults.specs.Numbers.{sheet_refusal};
ghost use Rattle.sheet.specs.Sheets.{Outcome};
ghost use Rattle.sheets.specs.Turns.{unit_count};
ghost use Rattle.sheets.specs.Kinds.{pin_sheet};
ghost use Rattle.sheets.specs.Fields.{pins_lawful};

use crate::rows::{PinRow, Way};
use faults::SheetFault;
use sheet::Layout;
use std::alloc::Global;

#[derive(Clone, Copy, Debug, PartialEq, Eq)]
pub struct PinSheet;

impl Layout for PinSheet {
    type Row = PinRow;

    ghost sheet = { λ _. pin_sheet };

    ghost lawful = { λ x. pins_lawful };

    fn number(&self) -> u8 {
        0
    }

    fn names(&self) -> &[u8] {
        b"unit,pin,rail,way"
    }

    fn width(&self) -> usize {
        4
    }

    fn row(&self, fields: &[&[u8]]) -> Option<PinRow> {
        let [unit, pin, rail, way] = fields else {
            return None;
        };
        let unit = text::number(unit, 23)?;
        let pin = text::number(pin, 3)?;
        let rail = text::number(rail, 23)?;
        let way = Way::try_from(*way).ok()?;
        Some(PinRow {
            unit: unit as u8,
            pin: pin as u8,
            rail: rail as u8,
            way,
        })
    }

    fn next(&self, rows: &[PinRow], row: &PinRow) -> bool {
        row.turn().follows(rows.last().map(PinRow::turn))
    }

    fn level(&self, _row: &PinRow) -> bool {
        true
    }

    fn whole(&self, rows: &[PinRow]) -> bool {
        !rows.is_empty()
    }
}

// The pins that a sheet holds, or the one fault that it has.
pub fn read_pins(heap: Global, bytes: &[u8]) -> Result<Vec<PinRow>, SheetFault>
    ensures { Exactly vec_items sheet_refusal (Outcome pin_sheet bytes.now) result }
{
    sheet::read_sheet(heap, &PinSheet, bytes)
}

// How many units the pins have.
pub fn units_of(rows: &[PinRow]) -> usize
    ensures { result ≡ unit_count rows.now }
{
    rows.last().map_or(0, |last| usize::from(last.unit) + 1)
}
