// Builds the units that the rows of the sheets describe.
ghost use Rattle.std.specs.Prelude.{◌≡◌, ◌<◌, map, IfOk};
ghost use Rattle.std.specs.List.{range_with_len};
ghost use Rattle.sheets.specs.Turns.{unit_count, pins_of};
ghost use Rattle.sheets.specs.Sets.{rows_of};
ghost use Rattle.platform.specs.Units.{bounds_at};
ghost use Rattle.platform.specs.Devices.{device, devices};
ghost use Rattle.platform.specs.Describing.{pin_from, modes_of, bounds_of, four, mode_from, unit_from, rail_count};

use crate::parts::{Bounds, Mode, Pin};
use crate::unit::Unit;
use sheets::{BoundRow, ModeRow, PinRow, Sheets, units_of};
use std::alloc::{AllocError, Global};

// What a pin has where its unit lacks it.
const NONE: Bounds = Bounds { low: 0, high: 0 };

// The pins of a unit.
fn pins_of(heap: Global, rows: &[PinRow], unit: usize) -> Result<Vec<Pin>, AllocError>
    ensures { IfOk result (λ v. v.items ≡ map pin_from (pins_of unit rows.now)) }
{
    rows.iter()
        .filter(|row| row.unit as usize == unit)
        .map(|row| Pin::from(*row))
        .collect(heap)
}

// The bounds of a mode, one for each pin of its unit.
fn bounds_of(heap: Global, rows: &[BoundRow], unit: u8, mode: u8) -> Result<Vec<Bounds>, AllocError>
    ensures { IfOk result (λ v. v.items ≡ bounds_of unit mode rows.now) }
{
    rows.iter()
        .filter(|row| (row.unit == unit) & (row.mode == mode))
        .map(|row| Bounds::from(*row))
        .collect(heap)
}

// The bounds at a pin, or none.
fn at(bounds: &[Bounds], pin: usize) -> Bounds
    ensures { result ≡ bounds_at bounds.now pin }
{
    bounds.get(pin).copied().unwrap_or(NONE)
}

fn four(bounds: &[Bounds]) -> [Bounds; 4]
    ensures { result ≡ four bounds.now }
{
    [at(bounds, 0), at(bounds, 1), at(bounds, 2), at(bounds, 3)]
}

fn mode_from(heap: Global, bounds: &[BoundRow], row: ModeRow) -> Result<Mode, AllocError>
    ensures { IfOk result (λ m. m ≡ mode_from bounds.now row) }
{
    let own = bounds_of(heap, bounds, row.unit, row.mode)?;
    Ok(Mode {
        kind: row.kind,
        draw: row.draw,
        heat: row.heat,
        bounds: four(&own),
    })
}

// The modes of a unit.
fn modes_of(
    heap: Global,
    rows: &[ModeRow],
    bounds: &[BoundRow],
    unit: usize,
) -> Result<Vec<Mode>, AllocError>
    ensures { IfOk result (λ v. v.items ≡ map (mode_from bounds.now) (modes_of unit rows.now)) }
{
    let mut out = Vec::new(heap);
    for row in rows {
        if row.unit as usize == unit {
            out.push(mode_from(heap, bounds, *row)?)?;
        }
    }
    Ok(out)
}

fn unit_from(heap: Global, sheets: &Sheets, unit: usize) -> Result<Unit, AllocError>
    requires { unit < unit_count (rows_of sheets.now).pins }
    ensures { IfOk result (λ u. device u ≡ unit_from (rows_of sheets.now) unit) }
{
    let pins = pins_of(heap, &sheets.pins, unit)?;
    let modes = modes_of(heap, &sheets.modes, &sheets.bounds, unit)?;
    Ok(Unit { pins, modes })
}

// All units, in order.
pub(crate) fn units_from(heap: Global, sheets: &Sheets) -> Result<Vec<Unit>, AllocError>
    ensures { IfOk result (λ v. devices v.items ≡ map (unit_from (rows_of sheets.now)) (range_with_len 0 (unit_count (rows_of sheets.now).pins))) }
{
    let mut out = Vec::new(heap);
    // A unit is built from its number: there is no list of units yet to go over.
    for unit in 0..units_of(&sheets.pins) {
        out.push(unit_from(heap, sheets, unit)?)?;
    }
    Ok(out)
}

// One more than the highest rail.
pub(crate) fn rails_of(rows: &[PinRow]) -> usize
    ensures { result ≡ rail_count rows.now }
{
    let mut rails = 0;
    for row in rows {
        rails = (row.rail as usize + 1).max(rails);
    }
    rails
}
