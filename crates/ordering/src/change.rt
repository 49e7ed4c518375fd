// A change from one mix to another, as it is proposed for a platform.
ghost use Rattle.std.specs.Prelude.{◌≡◌, ◌≤◌};
ghost use Rattle.ordering.specs.Sets.{place};
ghost use Rattle.ordering.specs.Filling.{mixes};

use platform::{Mix, Platform};

#[derive(Clone, Copy)]
pub struct Change<'a> {
    pub platform: &'a Platform,
    pub first: &'a Mix,
    pub last: &'a Mix,
}

impl Change<'_> {
    // How many of the rails below this one change.
    pub(crate) fn place(&self, rail: usize) -> usize
        requires { rail ≤ 24 }
        ensures { result ≡ place (mixes self.now) rail }
    {
        let ends = self.first.values.iter().zip(&self.last.values);
        ends.take(rail).filter(|(from, to)| from != to).count()
    }
}
