// A table of the input: a line of names, and lines of fields.
use anyhow::{Context, ensure};
use std::alloc::Global;

// The lines after the names line, each without its end.
pub(crate) fn rows<'a>(heap: Global, part: &'a [u8], names: &str) -> anyhow::Result<Vec<&'a [u8]>> {
    let mut lines: Vec<&'a [u8]> = part.split(|b| *b == b'\n').collect(heap)?;
    let after = lines.pop().context("a part of the input is empty")?;
    ensure!(
        after.is_empty(),
        "the last line of a part of the input does not end"
    );
    ensure!(!lines.is_empty(), "a part of the input is empty");
    let first = lines.remove(0);
    ensure!(
        first == names.as_bytes(),
        "where the names line {names} is due stands another one"
    );
    Ok(lines)
}
