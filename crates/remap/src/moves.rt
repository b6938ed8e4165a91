// The table of a remap layer: how many spares it has, and which blocks the used ones were given to.
ghost use Rattle.std.specs.Prelude.{◌≡◌, ◌≤◌, length};

pub mod acts;

// How many spares a layer has at most.
pub const MOST_SPARES: usize = 16;

// Spare i, of the first `used`, was given to block from[i]; a block stands at the last that it was given. The table is of fixed size,
// with a length beside it: there are at most 16 spares, and the layers use no heap.
#[derive(Drop)]
pub struct Moves {
    spares: usize,
    used: usize,
    from: [usize; MOST_SPARES],
    ghost long: { length from ≡ 16 },
    ghost few: { spares ≤ 16 },
    ghost within: { used ≤ spares },
}
