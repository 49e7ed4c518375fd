// Sheet 1, the modes of the units.
ghost use Rattle.std.specs.Prelude.{vec_items};
ghost use Rattle.answers.specs.Sequels.{Exactly};
ghost use Rattle.faults.specs.Numbers.{sheet_refusal};
ghost use Rattle.sheet.specs.Sheets.{Outcome};
ghost use Rattle.sheets.specs.Kinds.{mode_sheet};
ghost use Rattle.sheets.specs.Fields.{modes_lawful};

use crate::rows::{Kind, ModeRow};
use faults::SheetFault;
use sheet::Layout;
use std::alloc::Global;

// The sheet has modes for so many units.
#[derive(Clone, Copy, Debug, PartialEq, Eq)]
pub struct ModeSheet {
    pub units: usize,
}

impl Layout for ModeSheet {
    type Row = ModeRow;

    ghost sheet = { λ s. mode_sheet s.units };

    ghost lawful = { λ x. modes_lawful x.units };

    fn number(&self) -> u8 {
        1
    }

    fn names(&self) -> &[u8] {
        b"unit,mode,kind,draw,heat"
    }

    fn width(&self) -> usize {
        5
    }

    fn row(&self, fields: &[&[u8]]) -> Option<ModeRow> {
        let [unit, mode, kind, draw, heat] = fields else {
            return None;
        };
        let unit = text::number(unit, 23)?;
        let mode = text::number(mode, 5)?;
        let kind = Kind::try_from(*kind).ok()?;
        let draw = text::number(draw, 1_000_000)?;
        let heat = text::number(heat, 15)?;
        Some(ModeRow {
            unit: unit as u8,
            mode: mode as u8,
            kind,
            draw,
            heat: heat as u8,
        })
    }

    fn next(&self, rows: &[ModeRow], row: &ModeRow) -> bool {
        usize::from(row.unit) < self.units && row.turn().follows(rows.last().map(ModeRow::turn))
    }

    fn level(&self, _row: &ModeRow) -> bool {
        true
    }

    fn whole(&self, rows: &[ModeRow]) -> bool {
        rows.last()
            .is_some_and(|end| usize::from(end.unit) + 1 == self.units)
    }
}

// The modes that a sheet holds for so many units, or the one fault that it has.
pub fn read_modes(heap: Global, units: usize, bytes: &[u8]) -> Result<Vec<ModeRow>, SheetFault>
    ensures { Exactly vec_items sheet_refusal (Outcome (mode_sheet units) bytes.now) result }
{
    sheet::read_sheet(heap, &ModeSheet { units }, bytes)
}
