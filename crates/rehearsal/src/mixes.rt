// The mix sheet: a line for each rail in order, with its first value and maybe its last.
ghost use Rattle.std.specs.Prelude.{ℕ, MatchOption};
ghost use Rattle.text.specs.Written.{Writes};

use crate::table::rows;
use anyhow::{Context, ensure};
use platform::{Mix, Platform};
use std::alloc::Global;

// A value in millivolts.
pub(crate) fn millivolts(field: &[u8]) -> Option<u16>
    ensures { MatchOption result ((n : ℕ) → Writes 65535 field.now n → ⊥) (λ n. Writes 65535 field.now n) }
{
    let value = text::number(field, 65535)?;
    Some(value as u16)
}

// The value in a column of a rail's line, if the line is that rail's and has so many fields.
fn value_in(fields: &[&[u8]], rail: usize, width: usize, column: usize) -> Option<u16> {
    let number = text::number(fields.first()?, 23)?;
    if number as usize != rail || fields.len() != width {
        return None;
    }
    millivolts(fields.get(column)?)
}

// The mix in a column of the lines of a platform's rails.
fn mix_in(
    heap: Global,
    lines: &[&[u8]],
    platform: &Platform,
    width: usize,
    column: usize,
) -> anyhow::Result<Mix> {
    let rails = platform.rails() as usize;
    ensure!(
        lines.len() == rails,
        "the mix sheet has not one line for each of the {rails} rails"
    );
    let mut values = [0; 24];
    for (rail, line) in lines.iter().enumerate() {
        let fields = text::fields(heap, line)?;
        let at = rail + 1;
        values[rail] = value_in(&fields, rail, width, column).context(format_args!(
            "mix sheet, line {at}: not the next rail with its values"
        ))?;
    }
    Ok(Mix { values })
}

// The first mix alone.
pub(crate) fn read_first(heap: Global, part: &[u8], platform: &Platform) -> anyhow::Result<Mix> {
    let lines = rows(heap, part, "rail,first")?;
    mix_in(heap, &lines, platform, 2, 1)
}

// The first and the last mix.
pub(crate) fn read_both(
    heap: Global,
    part: &[u8],
    platform: &Platform,
) -> anyhow::Result<(Mix, Mix)> {
    let lines = rows(heap, part, "rail,first,last")?;
    let first = mix_in(heap, &lines, platform, 3, 1)?;
    let last = mix_in(heap, &lines, platform, 3, 2)?;
    Ok((first, last))
}
