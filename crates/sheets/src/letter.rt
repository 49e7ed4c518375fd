// The letters that stand for ways and kinds.
ghost use Rattle.sheets.specs.Letters.{ReadsLetter};
ghost use Rattle.sheets.specs.Kinds.{way_letter, kind_letter};

use crate::rows::{Kind, Way};

// A field that is no letter of what should stand there.
#[derive(Clone, Copy, Debug, PartialEq, Eq)]
pub struct UnknownLetter;

impl<'a> TryFrom<&'a [u8]> for Way {
    type Error = UnknownLetter;

    ghost try_from_gives = { λ field r. ReadsLetter way_letter field.now r };

    fn try_from(field: &'a [u8]) -> Result<Way, UnknownLetter> {
        match field {
            b"D" => Ok(Way::Drives),
            b"L" => Ok(Way::Loads),
            _ => Err(UnknownLetter),
        }
    }
}

impl<'a> TryFrom<&'a [u8]> for Kind {
    type Error = UnknownLetter;

    ghost try_from_gives = { λ field r. ReadsLetter kind_letter field.now r };

    fn try_from(field: &'a [u8]) -> Result<Kind, UnknownLetter> {
        match field {
            b"R" => Ok(Kind::Rest),
            b"P" => Ok(Kind::Pass),
            _ => Err(UnknownLetter),
        }
    }
}
