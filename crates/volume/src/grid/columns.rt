// The columns of one stripe: which are missing, and what the members hold of them.
ghost use Rattle.std.specs.Prelude.{◌≡◌, ◌*◌, ◌||◌, is_some, nat_lt};
ghost use Rattle.parity.specs.Ways.{or_else};
ghost use Rattle.contents.specs.Columns.{status, count};
ghost use Rattle.contents.specs.Changes.{Moved, Put, due};
ghost use Rattle.volume.specs.Grids.{width, grid_frontiers, columns_on, loss_on};
ghost use Rattle.volume.specs.Masks.{Room, with_status};
ghost use Rattle.volume.specs.Slots.{slots_in, members_in, Surveyed};

use crate::grid::Grid;
use crate::members::{is_gone, present_status};
use crate::survey::Survey;
use bank::Bank;
use code::{BLOCK, Code};
use contents::{Loss, Status};
use layout::Layout;
use recovery::loss::Lost;

// The loss with a slot's bit in the mask of its status.
fn with_status(loss: Loss, how: Status, bit: u32) -> Loss
    requires room { Room loss bit }
    ensures value { result ≡ with_status loss how bit }
{
    match how {
        Status::Current => loss,
        Status::Gone => Loss {
            gone: loss.gone + bit,
            ..loss
        },
        Status::Behind => Loss {
            behind: loss.behind + bit,
            ..loss
        },
        Status::Unreadable => Loss {
            unreadable: loss.unreadable + bit,
            ..loss
        },
    }
}

impl<'a, C: Code, L> Grid<'a, C, L> {
    // How the column of stripe `s` on a slot stands.
    pub fn status<B: Bank>(&self, bank: &B, s: usize, slot: usize) -> Status
        ensures value { result ≡ status (members_in B.Bank bank.now) (grid_frontiers self.now) s slot }
    {
        if bank.look(slot, s).is_ok() {
            return present_status(self.table.has(slot, s), true);
        }
        if is_gone(bank, slot) {
            return Status::Gone;
        }
        present_status(self.table.has(slot, s), false)
    }

    // Whether a slot's member is gone or does not have all stripes, of which there is at least one.
    fn is_weak<B: Bank>(&self, bank: &B, slot: usize) -> bool
        ensures value { result ≡ (members_in B.Bank bank.now slot).gone || nat_lt (grid_frontiers self.now slot) self.now.size.stripes }
    {
        is_gone(bank, slot) || !self.table.has_all(slot, self.size.stripes)
    }

    // How many slots are weak.
    pub fn weak_slots<B: Bank>(&self, bank: &B) -> usize
        ensures value { result ≡ count (λ i. (members_in B.Bank bank.now i).gone || nat_lt (grid_frontiers self.now i) self.now.size.stripes) self.now.size.slots }
    {
        (0..self.size.slots)
            .filter(|&slot| self.is_weak(bank, slot))
            .count()
    }

    // How many data columns a stripe has.
    pub fn width(&self) -> usize
        ensures value { result ≡ width self.now }
    {
        self.size.slots.saturating_sub(2)
    }

    // How many blocks there are.
    pub fn blocks(&self) -> usize
        ensures value { result ≡ self.now.size.stripes * width self.now }
    {
        self.size.stripes * self.width()
    }

    // What is lost of stripe `s`, slot by slot; asked only where a call is refused for it. Out of line it makes a read half as slow again,
    // since the read's answer then goes through memory.
    #[inline]
    pub fn loss<B: Bank>(&self, bank: &B, s: usize) -> Loss
        ensures value { result ≡ loss_on self.now (slots_in B.Bank bank.now) s }
    {
        let mut loss = Loss {
            stripe: s,
            gone: 0,
            behind: 0,
            unreadable: 0,
        };
        for slot in 0..self.size.slots {
            loss = with_status(loss, self.status(bank, s, slot), 1 << slot);
        }
        loss
    }
}

impl<'a, C: Code, L: Layout> Grid<'a, C, L> {
    // Whether column `t` of stripe `s` is current.
    pub fn has<B: Bank>(&self, bank: &B, s: usize, t: usize) -> bool
        ensures value { result ≡ is_some (columns_on L.Layout self.now (slots_in B.Bank bank.now) s t) }
    {
        let slot = self.layout.slot_of(self.size.slots, s, t);
        self.status(bank, s, slot) == Status::Current
    }

    // What is missing of stripe `s`. It counts beside what it notes, since a second look at each column would be slow.
    pub fn survey<B: Bank>(&self, bank: &B, s: usize) -> Survey
        ensures value { Surveyed (columns_on L.Layout self.now (slots_in B.Bank bank.now) s) (width self.now) result }
    {
        let k = self.width();
        let mut lost = Lost::Nothing;
        let mut missing = 0;
        for t in 0..k {
            let here = self.has(bank, s, t);
            lost.note(t, here);
            missing += usize::from(!here);
        }
        let p = self.has(bank, s, k);
        let q = self.has(bank, s, k + 1);
        missing += usize::from(!p) + usize::from(!q);
        Survey { lost, p, missing }
    }

    // Reads column `t` of stripe `s` into a buffer, if it is current.
    pub fn load<B: Bank>(&self, bank: &mut B, s: usize, t: usize, into: &mut [u8; BLOCK]) -> bool
        ensures same { slots_in B.Bank bank.new ≡ slots_in B.Bank bank.old }
        ensures current { result ≡ is_some (columns_on L.Layout self.now (slots_in B.Bank bank.old) s t) }
        ensures after { into.new ≡ or_else (columns_on L.Layout self.now (slots_in B.Bank bank.old) s t) into.old }
    {
        let slot = self.layout.slot_of(self.size.slots, s, t);
        if !self.table.has(slot, s) {
            return false;
        }
        bank.read(slot, s, into).is_ok()
    }

    // Writes bytes to column `t` of stripe `s`, if the stripe is below the frontier of its slot; what the member refuses is left.
    pub fn store<B: Bank>(&self, bank: &mut B, s: usize, t: usize, bytes: &[u8; BLOCK])
        ensures stored { Moved (Put (due (members_in B.Bank bank.old) (grid_frontiers self.now) s (L.Layout.slot self.now.layout.now self.now.size.slots s t)) s bytes.now) (L.Layout.slot self.now.layout.now self.now.size.slots s t) (members_in B.Bank bank.old) (members_in B.Bank bank.new) }
    {
        let slot = self.layout.slot_of(self.size.slots, s, t);
        if self.table.has(slot, s) {
            let _ = bank.write(slot, s, bytes);
        }
    }
}
