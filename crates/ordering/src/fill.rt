// The table of the sets that can be moved first.
ghost use Rattle.std.specs.Prelude.{◌≡◌, ℕ, ◌+◌, ◌^◌, ◌<◌, ◌≤◌, length, slice_index};
ghost use Rattle.platform.specs.Units.{Resting};
ghost use Rattle.histories.specs.Spans.{SpansOf};
ghost use Rattle.ordering.specs.Sets.{count};
ghost use Rattle.ordering.specs.Steps.{Movable};
ghost use Rattle.ordering.specs.Filling.{mixes, units_of, standing, Tried, Filled, Later};

use crate::search::Search;
use platform::Bounds;

// Writes 0 into the first bytes.
fn clear(table: &mut [u8], size: usize)
    requires { size ≤ length table.old }
    ensures none { (i : ℕ) → i < size → slice_index table.new i ≡ 0 }
    ensures later { (i : ℕ) → size ≤ i → slice_index table.new i ≡ slice_index table.old i }
{
    for byte in &mut table[..size] {
        *byte = 0;
    }
}

impl Search<'_> {
    // Tries a rail from a set, and marks the set with it where that is safe.
    fn try_rail(&self, spans: &mut [Bounds; 24], table: &mut [u8], set: usize, rail: usize)
        requires shown { SpansOf 24 (standing (mixes self.now.change) set) spans.old }
        requires movable { Movable (units_of self.now.change) (mixes self.now.change) set }
        requires rail { rail < (mixes self.now.change).rails }
        requires table { 2 ^ count (mixes self.now.change) ≤ length table.old }
        requires set { set < 2 ^ count (mixes self.now.change) }
        ensures same { spans.new ≡ spans.old }
        ensures tried { Tried (units_of self.now.change) (mixes self.now.change) set rail table.old table.new }
    {
        if !self.changes(rail) || self.has(set, rail) {
            return;
        }
        let with = set + self.alone(rail);
        if table[with] == 1 {
            return;
        }
        if self.follows(spans, set, rail) {
            table[with] = 1;
        }
    }

    // Tries every rail from a set that can be moved first.
    fn go_on(&self, table: &mut [u8], set: usize)
        requires set { set < 2 ^ count (mixes self.now.change) }
        requires one { slice_index table.old set ≡ 1 }
        requires filled { Filled (units_of self.now.change) (mixes self.now.change) table.old set 0 }
        ensures filled { Filled (units_of self.now.change) (mixes self.now.change) table.new (set + 1) 0 }
        ensures later { Later (mixes self.now.change) table.old table.new }
    {
        let mut spans = self.stand(set);
        // A trial changes the spans and the table, and of a rail only the number is asked: a chain would be no plainer.
        for rail in 0..self.rails() {
            self.try_rail(&mut spans, table, set, rail);
        }
    }

    // Goes through the sets in rising order: those of a set with one rail more come after it.
    fn sweep(&self, table: &mut [u8])
        requires { Filled (units_of self.now.change) (mixes self.now.change) table.old 0 0 }
        ensures filled { Filled (units_of self.now.change) (mixes self.now.change) table.new (2 ^ count (mixes self.now.change)) 0 }
        ensures later { Later (mixes self.now.change) table.old table.new }
    {
        // A set marks later ones while the table is gone through, so no iterator can hold it.
        for set in 0..self.size() {
            if table[set] == 1 {
                self.go_on(table, set);
            }
        }
    }

    // Fills the table.
    pub(crate) fn fill(&self, table: &mut [u8])
        requires table { 2 ^ count (mixes self.now.change) ≤ length table.old }
        requires rests { Resting (units_of self.now.change) self.now.change.first.now.values }
        ensures filled { Filled (units_of self.now.change) (mixes self.now.change) table.new (2 ^ count (mixes self.now.change)) 0 }
        ensures later { Later (mixes self.now.change) table.old table.new }
    {
        clear(table, self.size());
        table[0] = 1;
        self.sweep(table);
    }
}
