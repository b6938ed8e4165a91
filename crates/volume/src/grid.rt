// The grid of a volume: its stripes and slots, and where each column of a stripe lies.
ghost use Rattle.std.specs.Prelude.{◌≡◌};
ghost use Rattle.volume.specs.Sizes.{Fitting, size_of};

use crate::size::{Size, size_with};
use crate::slots::SlotTable;
use code::Code;

mod columns;
mod records;
mod recoveries;

// What a call on a volume looks at beside its bank: the code, the layout, the size, which fits the code, and the slots' records. Each call
// makes one of the volume's parts, so that the type of a volume asks nothing of its code.
#[derive(Drop)]
pub struct Grid<'a, C: Code, L> {
    pub code: &'a C,
    pub layout: &'a L,
    pub size: Size,
    pub table: &'a SlotTable,
    ghost fitting: { Fitting (C.coding code.now).limit size },
}

impl<'a, C: Code, L> Grid<'a, C, L> {
    // The grid of these parts, with the size that a volume with this code works with.
    pub fn of(code: &'a C, layout: &'a L, size: Size, table: &'a SlotTable) -> Grid<'a, C, L>
        ensures code { result.code.now ≡ code.now }
        ensures layout { result.layout.now ≡ layout.now }
        ensures size { result.size ≡ size_of (C.Code.coding code.now).limit size }
        ensures table { result.table.now ≡ table.now }
    {
        Grid {
            code,
            layout,
            size: size_with(code, size),
            table,
        }
    }
}
