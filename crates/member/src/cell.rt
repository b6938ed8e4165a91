// A member with eight blocks of its own, zeros at first. It is always present, readable and writable. A cell and an image are two
// kinds: one generic kind would save the second impl of `Member`, seven methods of a line each, and cost a trait of four members
// (the bytes, the bytes to write, the most blocks, fresh) with their laws, and two impls of it.
ghost use Rattle.std.specs.Prelude.{◌≡◌, ℕ, ◌<◌, List, length, slice_index};
ghost use Rattle.member.specs.Runs.{cell_bytes, cell_sound, cell_meaning, cell_wrote, cell_zeros};
ghost use Rattle.member.specs.RunsLemmas.{cell_lawful};

use crate::run::{count_in, look_in, read_in, write_in};
use crate::{Fault, Member};

// How many blocks and how many bytes a cell has.
const BLOCKS: usize = 8;

const BYTES: usize = 4096;

#[derive(Drop)]
pub struct Cell {
    bytes: [u8; BYTES],
    ghost long: { length bytes ≡ cell_bytes },
    ghost low: { (i : ℕ) → slice_index bytes i < 256 },
}

impl Cell {
    // A cell of zeros.
    pub fn new() -> Cell
        ensures state { result.bytes ≡ cell_zeros }
    {
        Cell { bytes: [0; BYTES] }
    }
}

impl Member for Cell {
    ghost State = { List ℕ };

    ghost state = { λ x. x.bytes };

    ghost sound = { cell_sound };

    ghost meaning = { cell_meaning };

    ghost seen = { λ s _ _. s };

    ghost wrote = { cell_wrote };

    ghost ticked = { λ s. s };

    ghost renewed = { λ _. cell_zeros };

    ghost holds = { λ x. record { long = x.long; bytes = x.low } };

    ghost lawful = { cell_lawful };

    fn count(&self) -> usize {
        count_in(&self.bytes, BLOCKS)
    }

    fn height(&self) -> u8 {
        0
    }

    fn look(&self, block: usize) -> Result<(), Fault> {
        look_in(&self.bytes, BLOCKS, block)
    }

    fn read(&mut self, block: usize, buffer: &mut [u8]) -> Result<(), Fault> {
        read_in(&self.bytes, BLOCKS, block, buffer)
    }

    fn write(&mut self, block: usize, bytes: &[u8]) -> Result<(), Fault> {
        write_in(&mut self.bytes, BLOCKS, block, bytes)
    }

    fn tick(&mut self) {}

    fn fresh(&mut self) {
        *self = Cell::new();
    }
}
