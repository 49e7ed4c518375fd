// The bytes of the four sheets of a board.
#[derive(Clone, Copy, Debug, PartialEq, Eq)]
pub struct FourSheets<'a> {
    pub pins: &'a [u8],
    pub modes: &'a [u8],
    pub bounds: &'a [u8],
    pub demands: &'a [u8],
}
