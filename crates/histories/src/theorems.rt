// What holds of every history.
ghost use Rattle.histories.specs.Spans.{SpanExact, SafetyExact};
ghost use Rattle.histories.specs.Laws.{SafeThroughout, Arrives};
ghost use Rattle.histories.specs.Orders.{NoWayRound};

// Every history is safe throughout and arrives; where no order is safe, no script goes round it; and rails are safe exactly when their spans are.
pub fn histories_stand()
    ensures safe { SafeThroughout }
    ensures arrives { Arrives }
    ensures orders { NoWayRound }
    ensures values { SpanExact }
    ensures spans { SafetyExact }
{}
