// The columns of a stripe that are all at hand, whichever way the caller holds them.
ghost use Rattle.std.specs.Prelude.{◌≡◌, ℕ, ◌<◌, ◌≤◌, List, length, Option, option_copied};
ghost use Rattle.recovery.specs.Columns.{stripe_of, columns_of};

use code::BLOCK;

// What recovery asks of the columns: how many there are, and each by its number, so that the same loops serve both ways of holding them.
pub(crate) trait AtHand {
    ghost count: { Self → ℕ };

    ghost held: { Self → ℕ → Option (List ℕ) };

    // How many columns there are, with the missing ones.
    fn len(&self) -> usize
        ensures value { result ≡ count self.now };

    // Column `t`, if it is there.
    fn at(&self, t: usize) -> Option<&[u8; BLOCK]>
        requires within { t < count self.now }
        ensures value { option_copied result ≡ held self.now t };
}

// A list in which a missing column is `None`.
#[derive(Drop)]
pub(crate) struct Given<'a> {
    pub(crate) columns: &'a [Option<&'a [u8; BLOCK]>],
}

impl<'a> AtHand for Given<'a> {
    ghost count = { λ s. length s.columns.now };

    ghost held = { λ s. columns_of s.columns.now };

    fn len(&self) -> usize {
        self.columns.len()
    }

    fn at(&self, t: usize) -> Option<&[u8; BLOCK]> {
        self.columns[t]
    }
}

// A list of blocks beside marks of those that are there. There is a mark for each block.
#[derive(Drop)]
pub(crate) struct Marked<'a> {
    pub(crate) columns: &'a [[u8; BLOCK]],
    pub(crate) present: &'a [bool],
    ghost marked: { length columns.now ≤ length present.now },
}

impl<'a> AtHand for Marked<'a> {
    ghost count = { λ s. length s.columns.now };

    ghost held = { λ s. stripe_of s.columns.now s.present.now };

    fn len(&self) -> usize {
        self.columns.len()
    }

    fn at(&self, t: usize) -> Option<&[u8; BLOCK]> {
        if self.present[t] {
            Some(&self.columns[t])
        } else {
            None
        }
    }
}
