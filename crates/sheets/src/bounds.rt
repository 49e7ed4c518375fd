// Sheet 2, the bounds of every pin of every mode.
ghost use Rattle.std.specs.Prelude.{◌≡◌, cond, ◌++◌, IfOk, vec_items, OnOk};
ghost use Rattle.answers.specs.Sequels.{Exactly};
ghost use Rattle.faults.specs.Numbers.{sheet_refusal};
ghost use Rattle.sheet.specs.Sheets.{Outcome};
ghost use Rattle.sheets.specs.Turns.{mode_places, places};
ghost use Rattle.sheets.specs.Kinds.{bound_sheet};
ghost use Rattle.sheets.specs.Fields.{bounds_lawful};

use crate::rows::{BoundRow, ModeRow, PinRow, Place};
use faults::SheetFault;
use sheet::Layout;
use std::alloc::{AllocError, Global};

// The sheet has bounds at these places.
#[derive(Drop)]
pub struct BoundSheet {
    pub places: Vec<Place>,
}

impl Layout for BoundSheet {
    type Row = BoundRow;

    ghost sheet = { λ s. bound_sheet s.places.items };

    ghost lawful = { λ x. bounds_lawful x.places.items };

    fn number(&self) -> u8 {
        2
    }

    fn names(&self) -> &[u8] {
        b"unit,mode,pin,low,high"
    }

    fn width(&self) -> usize {
        5
    }

    fn row(&self, fields: &[&[u8]]) -> Option<BoundRow> {
        let [unit, mode, pin, low, high] = fields else {
            return None;
        };
        let unit = text::number(unit, 23)?;
        let mode = text::number(mode, 5)?;
        let pin = text::number(pin, 3)?;
        let low = text::number(low, 65535)?;
        let high = text::number(high, 65535)?;
        Some(BoundRow {
            unit: unit as u8,
            mode: mode as u8,
            pin: pin as u8,
            low: low as u16,
            high: high as u16,
        })
    }

    fn next(&self, rows: &[BoundRow], row: &BoundRow) -> bool {
        self.places.get(rows.len()) == Some(&row.place())
    }

    fn level(&self, row: &BoundRow) -> bool {
        // One comparison: a function shared with sheet 3 would be no shorter.
        row.low <= row.high
    }

    fn whole(&self, rows: &[BoundRow]) -> bool {
        rows.len() == self.places.len()
    }
}

// Adds the places of one mode.
fn add_places(out: &mut Vec<Place>, pins: &[PinRow], mode: &ModeRow) -> Result<(), AllocError>
    ensures { OnOk result (out.new.items ≡ out.old.items ++ mode_places pins.now mode.now) }
{
    let own = pins.iter().filter(|pin| pin.unit == mode.unit);
    out.extend(own.map(|pin| mode.place(pin)))
}

// Where bounds are due, given the pins and the modes.
fn places_of(heap: Global, pins: &[PinRow], modes: &[ModeRow]) -> Result<Vec<Place>, AllocError>
    ensures { IfOk result (λ v. v.items ≡ places pins.now modes.now) }
{
    let mut out = Vec::new(heap);
    for mode in modes {
        add_places(&mut out, pins, mode)?;
    }
    Ok(out)
}

// The bounds that a sheet holds for these pins and modes, or the one fault that it has.
pub fn read_bounds(
    heap: Global,
    pins: &[PinRow],
    modes: &[ModeRow],
    bytes: &[u8],
) -> Result<Vec<BoundRow>, SheetFault>
    ensures { Exactly vec_items sheet_refusal (Outcome (bound_sheet (places pins.now modes.now)) bytes.now) result }
{
    let places = places_of(heap, pins, modes)?;
    sheet::read_sheet(heap, &BoundSheet { places }, bytes)
}
