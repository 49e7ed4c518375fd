// A bench: a row of rails of one make, worked together.
pub mod board;
pub mod make;

ghost use Rattle.std.specs.Prelude.{◌≤◌};

// Only the first `count` rails are read. Fixed memory: a board has up to 24 rails, and is worked without a heap.
#[derive(Drop)]
pub struct Bench<R> {
    count: u8,
    rails: [R; 24],
    ghost counted: { (1 ≤ count) × (count ≤ 24) },
}
