// Cuts the input into the four sheets.
ghost use Rattle.std.specs.Prelude.{Ok, Err, MatchResult};
ghost use Rattle.sheets.specs.Fours.{four_of};
ghost use Rattle.listings.specs.Inputs.{Cutting};

use faults::ListingFault;
use sheet::LONGEST;
use sheets::FourSheets;

// The four sheets between the input's first three empty lines.
pub(crate) fn cut<'a>(input: &'a [u8]) -> Result<FourSheets<'a>, ListingFault>
    ensures { MatchResult result (λ f. Cutting input.now (Ok (four_of f))) (λ e. Cutting input.now (Err e)) }
{
    if input.len() > LONGEST {
        return Err(ListingFault::Input);
    }
    let (pins, rest) = text::parts(input).ok_or(ListingFault::Parts)?;
    let (modes, rest) = text::parts(rest).ok_or(ListingFault::Parts)?;
    let (bounds, demands) = text::parts(rest).ok_or(ListingFault::Parts)?;
    Ok(FourSheets {
        pins,
        modes,
        bounds,
        demands,
    })
}
