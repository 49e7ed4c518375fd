// Reads a sheet's bytes into rows.
ghost use Rattle.std.specs.Prelude.{◌≡◌, ◌+◌, ◌<◌, length, vec_items, MatchResult};
ghost use Rattle.answers.specs.Sequels.{Exactly};
ghost use Rattle.faults.specs.Numbers.{sheet_refusal};
ghost use Rattle.sheet.specs.Sheets.{Told};
ghost use Rattle.sheet.specs.Sheets.{LineFault, ReadsRow, Granted, Refused as RefusedBy, Outcome, OneOutcome, OneWriting, ReadsBack};

use crate::layout::Layout;
use faults::SheetFault;
use std::alloc::Global;

// No sheet is longer.
pub const LONGEST: usize = 65535;

// The line that follows these rows, where the names line is line 0.
fn line_after<R>(rows: &[R]) -> usize
    requires { length rows.now < 65536 }
    ensures { result ≡ length rows.now + 1 }
{
    rows.len() + 1
}

// The row of the line that begins `rest`, and what follows that line.
fn read_line<'a, L: Layout>(
    heap: Global,
    layout: &L,
    rows: &[L::Row],
    rest: &'a [u8],
) -> Result<(L::Row, &'a [u8]), SheetFault>
    requires some { 0 < length rest.now }
    requires few { length rows.now < 65536 }
    ensures { MatchResult result (λ p. ReadsRow (L.Layout.sheet layout.now) rows.now rest.now p.0 p.1.now) (Told (LineFault (L.Layout.sheet layout.now) rows.now rest.now (length rows.now + 1))) }
{
    let sheet = layout.number();
    let line = line_after(rows);
    let end = text::find(rest, b'\n');
    if end == rest.len() {
        return Err(SheetFault::Shape { sheet, line });
    }
    let fields = text::fields(heap, &rest[0..end])?;
    if fields.len() != layout.width() {
        return Err(SheetFault::Shape { sheet, line });
    }
    // As the other checks of a line: what it refuses stands where it is looked at.
    let Some(row) = layout.row(fields.as_slice()) else {
        return Err(SheetFault::Field { sheet, line });
    };
    if !layout.next(rows, &row) {
        return Err(SheetFault::Turn { sheet, line });
    }
    if !layout.level(&row) {
        return Err(SheetFault::Crossed { sheet, line });
    }
    Ok((row, &rest[end + 1..]))
}

// The rows of a sheet, or a fault that it has.
fn read_rows<L: Layout>(heap: Global, layout: &L, bytes: &[u8]) -> Result<Vec<L::Row>, SheetFault>
    ensures { MatchResult result (λ v. Granted (L.Layout.sheet layout.now) bytes.now v.items) (Told (RefusedBy (L.Layout.sheet layout.now) bytes.now)) }
{
    let sheet = layout.number();
    if bytes.len() > LONGEST {
        return Err(SheetFault::TooLong { sheet });
    }
    let end = text::find(bytes, b'\n');
    if &bytes[0..end] != layout.names() {
        return Err(SheetFault::Names { sheet });
    }
    if end == bytes.len() {
        return Err(SheetFault::Shape { sheet, line: 0 });
    }
    let mut rows = Vec::new(heap);
    let mut rest = &bytes[end + 1..];
    while !rest.is_empty() {
        let (row, after) = read_line(heap, layout, rows.as_slice(), rest)?;
        rows.push(row)?;
        rest = after;
    }
    if !layout.whole(rows.as_slice()) {
        let line = line_after(rows.as_slice());
        return Err(SheetFault::Short { sheet, line });
    }
    Ok(rows)
}

// The rows of a sheet, or its first fault: the one outcome that its bytes have.
pub fn read_sheet<L: Layout>(
    heap: Global,
    layout: &L,
    bytes: &[u8],
) -> Result<Vec<L::Row>, SheetFault>
    ensures { Exactly vec_items sheet_refusal (Outcome (L.Layout.sheet layout.now) bytes.now) result }
{
    read_rows(heap, layout, bytes)
}

// Bytes have at most one outcome, rows are told by what is written of them, and what is written reads back.
pub fn sheet_laws<L: Layout>(layout: &L)
    ensures outcome { OneOutcome (L.Layout.sheet layout.now) }
    ensures writing { OneWriting (L.Layout.sheet layout.now) }
    ensures back { ReadsBack (L.Layout.sheet layout.now) }
{
    let _ = layout;
}
