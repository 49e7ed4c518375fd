// Scripts: one that is read, and the one of an order.
ghost use Rattle.std.specs.Prelude.{◌≡◌, IfOk};
ghost use Rattle.platform.specs.Units.{value_of};
ghost use Rattle.openings.specs.Orders.{singly};
ghost use Rattle.ordering.specs.Answers.{rails_of};

use crate::mixes::millivolts;
use crate::table::rows;
use anyhow::Context;
use histories::Step;
use ordering::Order;
use platform::Mix;
use std::alloc::{AllocError, Global};

// The step that the fields write.
fn step_of(fields: &[&[u8]]) -> Option<Step> {
    let [kind, rail, target] = fields else {
        return None;
    };
    let number = text::number(rail, 23)?;
    let rail = number as u8;
    match *kind {
        b"start" => {
            let target = millivolts(target)?;
            Some(Step::Start { rail, target })
        }
        b"wait" if target.is_empty() => Some(Step::Wait { rail }),
        _ => None,
    }
}

// The steps of a script sheet.
pub(crate) fn read_script(heap: Global, part: &[u8]) -> anyhow::Result<Vec<Step>> {
    let lines = rows(heap, part, "step,rail,target")?;
    let mut script = Vec::new(heap);
    for (above, line) in lines.iter().enumerate() {
        let fields = text::fields(heap, line)?;
        let at = above + 1;
        let step = step_of(&fields).context(format_args!("script, line {at}: not a step"))?;
        script.push(step)?;
    }
    Ok(script)
}

// Each rail of an order started towards its last value and waited for, before the next.
pub(crate) fn script_of(heap: Global, order: &Order, last: &Mix) -> Result<Vec<Step>, AllocError>
    ensures { IfOk result (λ script. script.items ≡ singly (value_of last.now.values) (rails_of order.now)) }
{
    let mut script = Vec::new(heap);
    for rail in order.rails() {
        let rail = *rail;
        let target = last.values.get(rail as usize).copied().unwrap_or(0);
        script.push(Step::Start { rail, target })?;
        script.push(Step::Wait { rail })?;
    }
    Ok(script)
}
