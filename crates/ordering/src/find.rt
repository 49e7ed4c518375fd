// The search for a safe order.
ghost use Rattle.platform.specs.Making.{model_of};
ghost use Rattle.ordering.specs.Answers.{Ordered};

use crate::change::Change;
use crate::fault::OrderFault;
use crate::order::Order;
use crate::search::Search;
use openings::End;
use std::array;

// More changed rails than these would want too large a table.
const MOST: usize = 16;

impl Change<'_> {
    // A safe order of the changed rails; and in the table, a byte for each set of them, 1 if it can be moved first.
    pub fn order(&self, table: &mut [u8]) -> Result<Order, OrderFault>
        ensures { Ordered (model_of self.now.platform.now) self.now.first.now.values self.now.last.now.values table.old table.new result }
    {
        if let Some(unit) = self.platform.lowest_unrested(*self.first) {
            let end = End::First;
            return Err(OrderFault::Restless { end, unit });
        }
        if let Some(unit) = self.platform.lowest_unrested(*self.last) {
            let end = End::Last;
            return Err(OrderFault::Restless { end, unit });
        }
        let changed = self.place(self.platform.rails() as usize);
        if changed > MOST {
            return Err(OrderFault::TooMany);
        }
        let places = array::from_fn(|rail| self.place(rail));
        let search = Search {
            change: *self,
            places,
            changed,
        };
        if table.len() < search.size() {
            return Err(OrderFault::ShortTable);
        }
        search.fill(table);
        if table[search.size() - 1] != 1 {
            return Err(OrderFault::NoOrder);
        }
        Ok(search.read_back(table))
    }
}
