// What a script makes of one rail.
ghost use Rattle.std.specs.Prelude.{◌≡◌, take};
ghost use Rattle.platform.specs.Units.{value_of};
ghost use Rattle.histories.specs.Rails.{after};

use histories::{Rail, Step};
use platform::Mix;

// The first `place` steps, or all where there are fewer.
fn first_steps(script: &[Step], place: usize) -> &[Step]
    ensures { result.now ≡ take place script.now }
{
    &script[..place.min(script.len())]
}

// A rail after the first `place` steps of the script, or after all where it has fewer.
pub fn rail_at(first: &Mix, script: &[Step], place: usize, rail: usize) -> Rail
    ensures { result ≡ after (value_of first.now.values) script.now place rail }
{
    let value = first.values.get(rail).copied().unwrap_or(0);
    let steps = first_steps(script, place).iter();
    steps.fold(
        Rail::Still { value },
        |state, step| state.stepped(*step, rail),
    )
}
