// A bank in one buffer that the caller hands over and gets back, cut into equal images. They are always present, readable and
// writable, and the bytes of the buffer outside of them never change.
#![tactic(auto)]

ghost use Rattle.std.specs.Prelude.{◌≡◌, ℕ, ◌<◌, IfOk, if◌then◌else◌, Some, None, nat_lt, slice_index};
ghost use Rattle.bank.specs.Slots.{bank_refusal, no_slot};
ghost use Rattle.shelf.specs.Shelves.{Shelved, shelved, shelf_sound, shelf_meaning, shelf_wrote, Placed};
ghost use Rattle.shelf.specs.ShelvesLemmas.{shelf_lawful};
ghost use Rattle.std.proofs.Common.{refl};

use bank::{Bank, BankFault};
use code::BLOCK;
use member::run::{count_in, raised, read_in, write_in};
use member::{Cause, MOST_BLOCKS};
use std::ops::Range;

#[derive(Drop)]
pub struct Shelf {
    buffer: Vec<u8>,
    images: usize,
    ghost low: { (i : ℕ) → slice_index buffer.items i < 256 },
}

impl Shelf {
    // The buffer cut into so many images.
    pub fn new(buffer: Vec<u8>, images: usize) -> Shelf
        ensures state { result.buffer ≡ buffer }
        ensures size { result.images ≡ images }
    {
        Shelf { buffer, images }
    }

    // The buffer, with what was written.
    pub fn into_buffer(self) -> Vec<u8>
        ensures value { result ≡ self.buffer }
    {
        let Shelf { buffer, images: _ } = self;
        buffer
    }

    // Refuses a slot that there is not, with the block asked, or 0 where none is asked.
    fn there(&self, slot: usize, block: usize) -> Result<(), BankFault>
        ensures answered { bank_refusal result ≡ (if nat_lt slot self.now.images then None else Some (no_slot block)) }
        ensures there { IfOk result (λ _. slot < self.now.images) }
    {
        if slot >= self.images {
            return Err(BankFault::no_slot(block));
        }
        Ok(())
    }

    // Where the image in a slot lies in the buffer.
    fn image(&self, slot: usize, block: usize) -> Result<Range<usize>, BankFault>
        ensures answered { bank_refusal result ≡ (if nat_lt slot self.now.images then None else Some (no_slot block)) }
        ensures found { IfOk result (λ r. Placed self.now.buffer.items self.now.images slot r.start r.end) }
    {
        self.there(slot, block)?;
        let size = self.buffer.len() / BLOCK / self.images * BLOCK;
        let start = slot * size;
        Ok(start..start + size)
    }
}

impl Bank for Shelf {
    ghost State = { Shelved };

    ghost state = { λ x. shelved x.buffer.items x.images };

    ghost sound = { shelf_sound };

    ghost meaning = { shelf_meaning };

    ghost seen = { λ s _ _ _. s };

    ghost wrote = { shelf_wrote };

    ghost ticked = { λ s _. s };

    ghost renewed = { λ s _. s };

    ghost holds = { λ x. record { long = refl; bytes = x.low } };

    ghost lawful = { shelf_lawful };

    fn len(&self) -> usize {
        self.images
    }

    fn count(&self, slot: usize) -> Result<usize, BankFault> {
        let at = self.image(slot, 0)?;
        Ok(count_in(&self.buffer[at], MOST_BLOCKS))
    }

    // This is asked for every column of a stripe, so it does not divide by the images.
    fn look(&self, slot: usize, block: usize) -> Result<(), BankFault> {
        self.there(slot, block)?;
        if block < MOST_BLOCKS
            && self.images.saturating_mul(block + 1) <= self.buffer.len() / BLOCK
        {
            return Ok(());
        }
        Err(BankFault::from(raised(Cause::NoBlock, block)))
    }

    fn read(&mut self, slot: usize, block: usize, buffer: &mut [u8]) -> Result<(), BankFault> {
        let at = self.image(slot, block)?;
        Ok(read_in(&self.buffer[at], MOST_BLOCKS, block, buffer)?)
    }

    fn write(&mut self, slot: usize, block: usize, bytes: &[u8]) -> Result<(), BankFault> {
        let at = self.image(slot, block)?;
        Ok(write_in(&mut self.buffer[at], MOST_BLOCKS, block, bytes)?)
    }

    fn tick(&mut self, slot: usize) -> Result<(), BankFault> {
        self.there(slot, 0)
    }

    fn fresh(&mut self, slot: usize) -> Result<(), BankFault> {
        self.there(slot, 0)
    }
}
