// An order in which rails are moved one at a time.
ghost use Rattle.std.specs.Prelude.{◌≡◌, ◌≤◌, take};

// Fixed memory: an order is of at most 16 rails, and is found without a heap.
#[derive(Clone, Copy, Debug, PartialEq, Eq)]
pub struct Order {
    pub(crate) rails: [u8; 16],
    pub(crate) count: usize,
    ghost counted: { count ≤ 16 },
}

impl Order {
    // Its rails, first to last.
    pub fn rails(&self) -> &[u8]
        ensures { result.now ≡ take self.now.count self.now.rails }
    {
        &self.rails[..self.count]
    }
}
