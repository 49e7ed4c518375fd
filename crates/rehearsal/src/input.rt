// Cuts the input into the four sheets and what is asked of the board.
use anyhow::{Context, ensure};
use sheets::FourSheets;

// No input is longer.
const LONGEST: usize = 65535;

// The sheet of mixes has a last mix unless a script follows it.
#[derive(Clone, Copy)]
pub(crate) struct Input<'a> {
    pub sheets: FourSheets<'a>,
    pub mixes: &'a [u8],
    pub script: Option<&'a [u8]>,
}

// What stands before the next empty line, and what after it.
fn part(rest: &[u8]) -> anyhow::Result<(&[u8], &[u8])> {
    text::parts(rest).context("the input has fewer than four empty lines")
}

pub(crate) fn cut(input: &[u8]) -> anyhow::Result<Input<'_>> {
    ensure!(
        input.len() <= LONGEST,
        "the input has more than 65535 bytes"
    );
    let (pins, rest) = part(input)?;
    let (modes, rest) = part(rest)?;
    let (bounds, rest) = part(rest)?;
    let (demands, asked) = part(rest)?;
    let sheets = FourSheets {
        pins,
        modes,
        bounds,
        demands,
    };
    let (mixes, script) = text::parts(asked).map_or(
        (asked, None),
        |(mixes, script)| (mixes, Some(script)),
    );
    Ok(Input {
        sheets,
        mixes,
        script,
    })
}
