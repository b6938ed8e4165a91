// A member in a buffer that the caller hands over and gets back. It is always present, readable and writable, and keeps the
// buffer's bytes beyond the last whole block.
ghost use Rattle.std.specs.Prelude.{◌≡◌, ℕ, ◌<◌, List, slice_index};
ghost use Rattle.member.specs.Runs.{image_sound, image_meaning, image_wrote, RestKept};
ghost use Rattle.member.specs.RunsLemmas.{image_lawful};
ghost use Rattle.std.proofs.Common.{refl};

use crate::run::{count_in, look_in, read_in, write_in};
use crate::{Fault, MOST_BLOCKS, Member};

#[derive(Drop)]
pub struct Image {
    buffer: Vec<u8>,
    ghost low: { (i : ℕ) → slice_index buffer.items i < 256 },
}

impl Image {
    // The image that the buffer holds.
    pub fn new(buffer: Vec<u8>) -> Image
        ensures state { result.buffer ≡ buffer }
    {
        Image { buffer }
    }

    // The buffer, with what was written.
    pub fn into_buffer(self) -> Vec<u8>
        ensures value { result ≡ self.buffer }
    {
        let Image { buffer } = self;
        buffer
    }
}

impl Member for Image {
    ghost State = { List ℕ };

    ghost state = { λ x. x.buffer.items };

    ghost sound = { image_sound };

    ghost meaning = { image_meaning };

    ghost seen = { λ s _ _. s };

    ghost wrote = { image_wrote };

    ghost ticked = { λ s. s };

    ghost renewed = { λ s. s };

    ghost holds = { λ x. record { long = refl; bytes = x.low } };

    ghost lawful = { image_lawful };

    fn count(&self) -> usize {
        count_in(&self.buffer, MOST_BLOCKS)
    }

    fn height(&self) -> u8 {
        0
    }

    fn look(&self, block: usize) -> Result<(), Fault> {
        look_in(&self.buffer, MOST_BLOCKS, block)
    }

    fn read(&mut self, block: usize, buffer: &mut [u8]) -> Result<(), Fault> {
        read_in(&self.buffer, MOST_BLOCKS, block, buffer)
    }

    fn write(&mut self, block: usize, bytes: &[u8]) -> Result<(), Fault> {
        write_in(&mut self.buffer, MOST_BLOCKS, block, bytes)
    }

    fn tick(&mut self) {}

    fn fresh(&mut self) {}
}

// What lies beyond the last block is given back as it was handed over.
pub fn rest_kept()
    ensures stands { RestKept }
{}
