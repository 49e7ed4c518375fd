// A run's own copy of a script.
ghost use Rattle.std.specs.Prelude.{◌≡◌, ◌≤◌, length};

use histories::Step;

// Fixed memory: a run keeps its script without a heap, and only the first `count` items are read.
#[derive(Clone, Copy)]
pub(crate) struct Steps {
    items: [Step; 64],
    count: usize,
    ghost fits: { (count ≤ 64) × (length items ≡ 64) },
}

impl Steps {
    ghost use Rattle.runs.specs.Steps.{steps_of};

    pub(crate) fn copied(script: &[Step]) -> Steps
        requires { length script.now ≤ 64 }
        ensures { steps_of result ≡ script.now }
    {
        let mut items = [Step::Wait { rail: 0 }; 64];
        items[..script.len()].copy_from_slice(script);
        Steps {
            items,
            count: script.len(),
        }
    }

    pub(crate) fn as_slice(&self) -> &[Step]
        ensures { result.now ≡ steps_of self.now }
    {
        &self.items[..self.count]
    }
}
