// What holds of every platform and all demands.
ghost use Rattle.settling.specs.Choices.{HopelessExactly};
ghost use Rattle.settling.specs.Settling.{SettledOnce};

use crate::cost::Cost;

// No choice fits exactly where no mix that meets the demands rests.
pub fn hopeless_exactly()
    ensures { HopelessExactly }
{}

// There is one answer only.
pub fn settled_once<C: Cost>()
    ensures { SettledOnce C.toll }
{}
