// What the program writes out for an input, whatever its bytes are.
ghost use Rattle.std.specs.Prelude.{Some, IfOk};
ghost use Rattle.listings.specs.Reports.{text_of, is_refusal, Reported};

use crate::list::listing_of;
use crate::write::refusal_text;
use std::alloc::Global;
use std::fmt;

// The text to write: a listing, or that of a refusal.
#[derive(Drop)]
pub enum Report {
    Listing(String),
    Refusal(String),
}

impl fmt::Display for Report {
    ghost output = { λ r. Some (text_of r) };

    fn fmt<W: fmt::Write>(&self, f: &mut fmt::Formatter<W>) -> fmt::Result {
        match self {
            Report::Listing(text) | Report::Refusal(text) => f.write_str(text),
        }
    }
}

// The listing of the input, or that of its one refusal.
pub fn report_on(heap: Global, input: &[u8]) -> Result<Report, fmt::Error>
    ensures { IfOk result (λ p. Reported input.now (text_of p) (is_refusal p)) }
{
    match listing_of(heap, input) {
        Ok(text) => Ok(Report::Listing(text)),
        Err(fault) => Ok(Report::Refusal(refusal_text(heap, fault)?)),
    }
}
