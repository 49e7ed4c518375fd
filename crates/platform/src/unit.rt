// A unit, whose type says how many pins and modes it has, and that no pin is on a rail past the twenty-fourth.
ghost use Rattle.std.specs.Prelude.{vec_items};
ghost use Rattle.platform.specs.Rules.{PinsCounted, ModesCounted, Wired};

use crate::parts::{Mode, Pin};

// A supply, a regulator or a load.
#[derive(Drop)]
pub struct Unit {
    pub pins: Vec<Pin>,
    pub modes: Vec<Mode>,
    ghost pins_counted: { PinsCounted (record { pins = vec_items pins; modes = vec_items modes }) },
    ghost modes_counted: { ModesCounted (record { pins = vec_items pins; modes = vec_items modes }) },
    ghost wired: { Wired 24 (record { pins = vec_items pins; modes = vec_items modes }) },
}
