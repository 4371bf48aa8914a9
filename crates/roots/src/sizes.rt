// The sizes of a search.
ghost use Rattle.std.specs.Prelude.{◌≤◌};

use followers::Rows;

// The rows of a curve, and the symbols of a message: as many as there is room for.
#[derive(Clone, Copy)]
pub struct Sizes {
    pub rows: Rows,
    pub k: usize,
    ghost symbols: { 1 ≤ k },
}
