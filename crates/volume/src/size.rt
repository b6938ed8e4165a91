// How many slots and stripes a volume has.
ghost use Rattle.std.specs.Prelude.{◌≡◌, is_some, unwrap_or, IfSome};
ghost use Rattle.contents.specs.Shapes.{fit, smallest};
ghost use Rattle.bank.specs.Slots.{told};
ghost use Rattle.volume.specs.Forming.{parts_size};
ghost use Rattle.volume.specs.Sizes.{Fitting, size_of};
ghost use Rattle.volume.specs.Slots.{members_in, slots_in};

use crate::walks::smallest_count;
use bank::Bank;
use code::Code;
use member::MOST_BLOCKS;

// How many slots a volume has at most.
pub const MOST_SLOTS: usize = 18;

// The slots and stripes of a volume.
#[derive(Clone, Copy, Default)]
pub struct Size {
    pub slots: usize,
    pub stripes: usize,
}

// Whether so many slots and stripes fit a code of this limit.
pub fn fits(limit: usize, slots: usize, stripes: usize) -> bool
    ensures value { result ≡ fit slots limit stripes }
{
    4 <= slots && slots <= MOST_SLOTS && slots - 2 <= limit && 0 < stripes
}

// The size that a volume with this code works with: what it was formatted with if that fits, else nothing.
pub fn size_with<C: Code>(code: &C, size: Size) -> Size
    ensures value { result ≡ size_of (C.Code.coding code.now).limit size }
    ensures fitting { Fitting (C.Code.coding code.now).limit result }
{
    if fits(code.limit(), size.slots, size.stripes) && size.stripes <= MOST_BLOCKS {
        size
    } else {
        Size::default()
    }
}

// The size that a code and a bank make; none where they do not fit.
pub fn parts_size<C: Code, B: Bank>(code: &C, bank: &B) -> Option<Size>
    ensures fits { is_some result ≡ fit (told (slots_in B.Bank bank.now).size) (C.Code.coding code.now).limit (smallest (members_in B.Bank bank.now) (told (slots_in B.Bank bank.now).size)) }
    ensures value { unwrap_or result (record { slots = 0; stripes = 0 }) ≡ parts_size (C.Code.coding code.now).limit (told (slots_in B.Bank bank.now).size) (members_in B.Bank bank.now) }
    ensures fitting { IfSome result (Fitting (C.Code.coding code.now).limit) }
{
    let slots = bank.len();
    if slots > MOST_SLOTS {
        return None;
    }
    let stripes = smallest_count(bank, slots);
    if !fits(code.limit(), slots, stripes) {
        return None;
    }
    Some(Size { slots, stripes })
}
