// Sheet 3, the customer's demands.
ghost use Rattle.std.specs.Prelude.{vec_items};
ghost use Rattle.answers.specs.Sequels.{Exactly};
ghost use Rattle.faults.specs.Numbers.{sheet_refusal};
ghost use Rattle.sheet.specs.Sheets.{Outcome};
ghost use Rattle.sheets.specs.Kinds.{demand_sheet};
ghost use Rattle.sheets.specs.Fields.{demands_lawful};

use crate::rows::Demand;
use faults::SheetFault;
use sheet::Layout;
use std::alloc::Global;

#[derive(Clone, Copy, Debug, PartialEq, Eq)]
pub struct DemandSheet;

impl Layout for DemandSheet {
    type Row = Demand;

    ghost sheet = { λ _. demand_sheet };

    ghost lawful = { λ x. demands_lawful };

    fn number(&self) -> u8 {
        3
    }

    fn names(&self) -> &[u8] {
        b"rail,low,high"
    }

    fn width(&self) -> usize {
        3
    }

    fn row(&self, fields: &[&[u8]]) -> Option<Demand> {
        let [rail, low, high] = fields else {
            return None;
        };
        let rail = text::number(rail, 23)?;
        let low = text::number(low, 65535)?;
        let high = text::number(high, 65535)?;
        Some(Demand {
            rail: rail as u8,
            low: low as u16,
            high: high as u16,
        })
    }

    fn next(&self, rows: &[Demand], row: &Demand) -> bool {
        rows.last().is_none_or(|before| before.rail < row.rail)
    }

    fn level(&self, row: &Demand) -> bool {
        // One comparison: a function shared with sheet 2 would be no shorter.
        row.low <= row.high
    }

    fn whole(&self, _rows: &[Demand]) -> bool {
        true
    }
}

// The demands that a sheet holds, or the one fault that it has.
pub fn read_demands(heap: Global, bytes: &[u8]) -> Result<Vec<Demand>, SheetFault>
    ensures { Exactly vec_items sheet_refusal (Outcome demand_sheet bytes.now) result }
{
    sheet::read_sheet(heap, &DemandSheet, bytes)
}
