// The records of a grid's slots.
ghost use Rattle.std.specs.Prelude.{◌≡◌};
ghost use Rattle.volume.specs.Slots.{open_frontier};

use crate::grid::Grid;
use code::Code;
use contents::SlotState;

impl<'a, C: Code, L> Grid<'a, C, L> {
    // The frontier of a slot that is open; none where it is idle or there is no such slot.
    pub fn open_frontier(&self, slot: usize) -> Option<usize>
        ensures value { result ≡ open_frontier self.now.table.now.rows self.now.size.slots slot }
    {
        if slot >= self.size.slots {
            return None;
        }
        let row = self.table.rows[slot];
        match row.state {
            SlotState::Idle => None,
            SlotState::Open => Some(row.frontier),
        }
    }
}
