// Writes out a settled platform, or a refusal.
ghost use Rattle.std.specs.Prelude.{◌≡◌, ◌++◌, length, IfOk, string_bytes, OnOk};
ghost use Rattle.std.specs.List.{range_with_len, flat_map};
ghost use Rattle.platform.specs.Making.{model_of};
ghost use Rattle.faults.specs.Numbers.{listing_refusal};
ghost use Rattle.listings.specs.Texts.{total_text, unit_line, units_text, rail_line, rails_text, settled_text, refusal_text};

use faults::{Fault, ListingFault};
use platform::{Bounds, Platform};
use settling::{HeatThenDraw, Settled, cost_of};
use std::alloc::Global;
use std::fmt;

fn write_total(out: &mut String, total: HeatThenDraw) -> Result<(), fmt::Error>
    ensures { OnOk result (string_bytes out.new ≡ string_bytes out.old ++ total_text total) }
{
    let HeatThenDraw { heat, draw } = total;
    writeln!(out, "draw,heat")?;
    writeln!(out, "{draw},{heat}")?;
    Ok(())
}

// A line for each of the first units.
fn unit_lines<C>(
    out: &mut String,
    choice: &Settled<C>,
    platform: &Platform,
) -> Result<(), fmt::Error>
    ensures { OnOk result (string_bytes out.new ≡ string_bytes out.old ++ flat_map (unit_line choice.now.modes) (range_with_len 0 (length (model_of platform.now).units))) }
{
    let units = platform.units().len();
    for (unit, mode) in choice.modes[..units].iter().enumerate() {
        writeln!(out, "{unit},{mode}")?;
    }
    Ok(())
}

fn write_units<C>(
    out: &mut String,
    choice: &Settled<C>,
    platform: &Platform,
) -> Result<(), fmt::Error>
    ensures { OnOk result (string_bytes out.new ≡ string_bytes out.old ++ units_text choice.now.modes (length (model_of platform.now).units)) }
{
    writeln!(out, "unit,mode")?;
    unit_lines(out, choice, platform)?;
    Ok(())
}

// A line for each of the first rails. Units and rails have no function in common here: a line of each has columns of its own.
fn rail_lines<C>(
    out: &mut String,
    choice: &Settled<C>,
    platform: &Platform,
) -> Result<(), fmt::Error>
    ensures { OnOk result (string_bytes out.new ≡ string_bytes out.old ++ flat_map (rail_line choice.now.windows choice.now.targets.values) (range_with_len 0 platform.now.rails)) }
{
    let rails = platform.rails() as usize;
    for (rail, window) in choice.windows[..rails].iter().enumerate() {
        let Bounds { low, high } = *window;
        let target = choice.targets.values[rail];
        writeln!(out, "{rail},{low},{high},{target}")?;
    }
    Ok(())
}

fn write_rails<C>(
    out: &mut String,
    choice: &Settled<C>,
    platform: &Platform,
) -> Result<(), fmt::Error>
    ensures { OnOk result (string_bytes out.new ≡ string_bytes out.old ++ rails_text choice.now.windows choice.now.targets.values platform.now.rails) }
{
    writeln!(out, "rail,low,high,target")?;
    rail_lines(out, choice, platform)?;
    Ok(())
}

// Adds the listing of one choice.
pub(crate) fn write_choice<C>(
    out: &mut String,
    platform: &Platform,
    choice: &Settled<C>,
) -> Result<(), fmt::Error>
    ensures { OnOk result (string_bytes out.new ≡ string_bytes out.old ++ settled_text (model_of platform.now) choice.now) }
{
    write_total(out, cost_of(platform, choice.modes))?;
    write_units(out, choice, platform)?;
    write_rails(out, choice, platform)?;
    Ok(())
}

// The listing of a refusal.
pub(crate) fn refusal_text(heap: Global, fault: ListingFault) -> Result<String, fmt::Error>
    ensures { IfOk result (λ t. string_bytes t ≡ refusal_text (listing_refusal fault)) }
{
    let refusal = fault.refusal();
    let mut out = String::new(heap);
    writeln!(out, "refusal,sheet,line")?;
    writeln!(out, "{refusal}")?;
    Ok(out)
}
