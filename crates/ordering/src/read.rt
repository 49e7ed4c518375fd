// Reading an order back from the table.
ghost use Rattle.std.specs.Prelude.{◌≡◌, ℕ, ◌-◌, ◌^◌, ◌<◌, Decides, MatchOption, slice_index};
ghost use Rattle.ordering.specs.Sets.{count, SafeOrder};
ghost use Rattle.ordering.specs.Answers.{rails_of};
ghost use Rattle.ordering.specs.Filling.{mixes, units_of, Exact, Last, IsLast};

use crate::order::Order;
use crate::search::Search;

impl Search<'_> {
    // Can the rail be the last of the set to move?
    fn is_last(&self, table: &[u8], set: usize, rail: usize) -> bool
        requires rail { rail < (mixes self.now.change).rails }
        requires set { set < 2 ^ count (mixes self.now.change) }
        requires exact { Exact (units_of self.now.change) (mixes self.now.change) table.now }
        ensures { Decides result (IsLast (units_of self.now.change) (mixes self.now.change) table.now set rail) }
    {
        if !self.changes(rail) || !self.has(set, rail) {
            return false;
        }
        let before = set - self.alone(rail);
        table[before] == 1 && self.follows(&mut self.stand(before), before, rail)
    }

    // A rail that can be the last of a set to move, or none of an empty set.
    fn last(&self, table: &[u8], set: usize) -> Option<usize>
        requires set { set < 2 ^ count (mixes self.now.change) }
        requires exact { Exact (units_of self.now.change) (mixes self.now.change) table.now }
        requires one { slice_index table.now set ≡ 1 }
        ensures { MatchOption result (set ≡ 0) (λ r. (r < (mixes self.now.change).rails) × IsLast (units_of self.now.change) (mixes self.now.change) table.now set r) }
    {
        (0..self.rails()).find(|rail| self.is_last(table, set, *rail))
    }

    // A safe order, from a table that marks the set of all changed rails.
    pub(crate) fn read_back(&self, table: &[u8]) -> Order
        requires exact { Exact (units_of self.now.change) (mixes self.now.change) table.now }
        requires one { slice_index table.now (2 ^ count (mixes self.now.change) - 1) ≡ 1 }
        ensures { SafeOrder (units_of self.now.change) (mixes self.now.change) (rails_of result) }
    {
        let mut rails = [0; 16];
        let mut left = self.changed;
        let mut set = self.size() - 1;
        while let Some(rail) = self.last(table, set) {
            left -= 1;
            rails[left] = rail as u8;
            set -= self.alone(rail);
        }
        Order {
            rails,
            count: self.changed,
        }
    }
}
