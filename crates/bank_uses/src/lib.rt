// Callers of banks: what generic code, and code on a bank of known kind, learns from the contracts alone.
#![tactic(auto)]

ghost use Rattle.std.specs.Prelude.{◌≡◌, true, false, not, ◌&&◌, None, ◌==◌};
ghost use Rattle.member.specs.Runs.{cell_zeros};
ghost use Rattle.bank.specs.Slots.{bank_refusal};
ghost use Rattle.shelf.specs.Shelves.{shelved, shelf_wrote};
ghost use Rattle.bank_uses.specs.Uses.{Thrice};

use bank::chain::Link;
use bank::empty::NoMembers;
use bank::{Bank, BankFault};
use member::Member;
use member::cell::Cell;
use shelf::Shelf;

// Writes three blocks to three slots of any bank, which have to be distinct: nothing is written otherwise. It answers whether it
// wrote, and no `Result`: an `Ok` would say that the bank accepted the writes, which it need not.
pub fn write_three<B: Bank>(
    bank: &mut B,
    slots: (usize, usize, usize),
    block: usize,
    x: &[u8],
    y: &[u8],
    z: &[u8],
) -> bool
    ensures written { result ≡ true → Thrice (B.Bank.meaning (B.Bank.state bank.old)) slots.0 slots.1 slots.2 block x.now y.now z.now (B.Bank.meaning (B.Bank.state bank.new)) }
    ensures refused { result ≡ false → B.Bank.state bank.new ≡ B.Bank.state bank.old }
    ensures answered { result ≡ (not (slots.0 == slots.1) && (not (slots.0 == slots.2) && not (slots.1 == slots.2))) }
{
    let (i, j, k) = slots;
    if i == j || i == k || j == k {
        return false;
    }
    let _ = bank.write(i, block, x);
    let _ = bank.write(j, block, y);
    let _ = bank.write(k, block, z);
    true
}

// A fresh member in slot 1 of a chain of two cells: it holds zeros, and the other cell is kept.
pub fn renew_second(bank: &mut Link<Cell, Link<Cell, NoMembers>>) -> Result<(), BankFault>
    ensures answered { bank_refusal result ≡ None }
    ensures second { bank.new.rest.first.bytes ≡ cell_zeros }
    ensures first { bank.new.first.bytes ≡ bank.old.first.bytes }
{
    bank.fresh(1)
}

// Writes a block to one of the images in a buffer, and hands the buffer back.
pub fn write_image(
    buffer: Vec<u8>,
    images: usize,
    slot: usize,
    block: usize,
    bytes: &[u8],
) -> Vec<u8>
    ensures value { result.items ≡ (shelf_wrote (shelved buffer.items images) slot block bytes.now).bytes }
{
    let mut shelf = Shelf::new(buffer, images);
    let _ = shelf.write(slot, block, bytes);
    shelf.into_buffer()
}
