// What holds of every history of a run that was opened so.
ghost use Rattle.openings.specs.Laws.{SafeThroughout, Arrives};
ghost use Rattle.openings.specs.Orders.{NoWayRound};

// Every history is safe throughout and arrives; and where no order is safe, no script goes round it.
pub fn openings_stand()
    ensures safe { SafeThroughout }
    ensures arrives { Arrives }
    ensures orders { NoWayRound }
{}
