// Making a bench.
ghost use Rattle.std.specs.Prelude.{◌≡◌, ◌≤◌, MatchResult};
ghost use Rattle.boards.specs.Faults.{Refused};
ghost use Rattle.boards.specs.Making.{Makable};
ghost use Rattle.boards.specs.Benches.{Made};

use crate::bench::Bench;
use crate::fault::BoardFault;
use crate::rail::Rail;
use platform::Mix;

impl<R: Rail> Bench<R> {
    // A bench at rest at a first mix.
    pub fn new(count: u8, settings: &[R::Setting; 24], first: &Mix) -> Result<Bench<R>, BoardFault>
        ensures { let in_range = Makable R.unset R.suits R.CEILING count settings.now first.now.values in MatchResult result (λ b. in_range × Made R.unset R.blank R.rests count settings.now first.now.values b) (Refused in_range) }
    {
        if count == 0 || count > 24 {
            return Err(BoardFault::OutOfRange);
        }
        let rail = R::rest(settings[0], first.values[0])?;
        let mut bench = Bench {
            count,
            rails: [rail; 24],
        };
        bench.rest(settings, first)?;
        Ok(bench)
    }

    // Puts each rail to rest.
    fn rest(&mut self, settings: &[R::Setting; 24], first: &Mix) -> Result<(), BoardFault>
        ensures { let in_range = Makable R.unset R.suits R.CEILING self.old.count settings.now first.now.values in MatchResult result (λ _. in_range × Made R.unset R.blank R.rests self.old.count settings.now first.now.values self.new) (Refused in_range) }
    {
        let used = &settings[..self.count as usize];
        // Tried: a proof learns nothing of what is written through `iter_mut` in a `zip`.
        for (i, (setting, mv)) in used.iter().zip(&first.values).enumerate() {
            self.rails[i] = R::rest(*setting, *mv)?;
        }
        Ok(())
    }
}
