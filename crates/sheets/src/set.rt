// The rows of all four sheets of a board, whose type says that they keep their rules.
ghost use Rattle.sheets.specs.Reading.{Kept};

use crate::rows::{BoundRow, Demand, ModeRow, PinRow};

#[derive(Drop)]
pub struct Sheets {
    pub pins: Vec<PinRow>,
    pub modes: Vec<ModeRow>,
    pub bounds: Vec<BoundRow>,
    pub demands: Vec<Demand>,
    ghost kept: { ∥ Kept pins.items modes.items bounds.items demands.items ∥₁ },
}
