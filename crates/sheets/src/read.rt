// Reads all four sheets, and says what reading means.
ghost use Rattle.std.specs.Prelude.{◌≡◌, ℕ, List};
ghost use Rattle.answers.specs.Sequels.{Exactly};
ghost use Rattle.faults.specs.Numbers.{sheet_refusal};
ghost use Rattle.sheet.specs.Sheets.{OneWriting, ReadsBack};
ghost use Rattle.sheets.specs.Fours.{four_of};
ghost use Rattle.sheets.specs.Kinds.{pin_sheet, mode_sheet, bound_sheet, demand_sheet};
ghost use Rattle.sheets.specs.Reading.{Reading};
ghost use Rattle.sheets.specs.Sets.{rows_of};

use crate::bounds::read_bounds;
use crate::demands::read_demands;
use crate::four::FourSheets;
use crate::modes::read_modes;
use crate::pins::{read_pins, units_of};
use crate::rows::Place;
use crate::set::Sheets;
use faults::SheetFault;
use std::alloc::Global;

// The rows of the four sheets, or the first fault: each sheet is read whole before the next.
pub fn read_sheets(heap: Global, four: FourSheets) -> Result<Sheets, SheetFault>
    ensures { let f = four_of four.entry in Exactly rows_of sheet_refusal (Reading f.pins f.modes f.bounds f.demands) result }
{
    let pins = read_pins(heap, four.pins)?;
    let modes = read_modes(heap, units_of(&pins), four.modes)?;
    let bounds = read_bounds(heap, &pins, &modes, four.bounds)?;
    let demands = read_demands(heap, four.demands)?;
    Ok(Sheets {
        pins,
        modes,
        bounds,
        demands,
    })
}

// What is written of rows that keep their rules reads back as these rows, and no two lists of them are written the same.
pub fn sheets_read_back()
    ensures pins { ReadsBack pin_sheet × OneWriting pin_sheet }
    ensures modes { (units : ℕ) → ReadsBack (mode_sheet units) × OneWriting (mode_sheet units) }
    ensures bounds { (places : List Place) → ReadsBack (bound_sheet places) × OneWriting (bound_sheet places) }
    ensures demands { ReadsBack demand_sheet × OneWriting demand_sheet }
{}
