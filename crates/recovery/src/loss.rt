// The missing data columns of a stripe, as far as they matter for recovery.
ghost use Rattle.std.specs.Prelude.{◌≡◌, ◌∷◌, if◌then◌else◌};
ghost use Rattle.parity.specs.Ways.{way};
ghost use Rattle.recovery.specs.Losses.{listed, noted};

use parity::Way;

// The two highest missing data columns, the highest first. Nested options would need two matches where this needs one.
#[derive(Clone, Copy)]
pub enum Lost {
    Nothing,
    One(usize),
    Two(usize, usize),
}

impl Lost {
    // With one more column, which is above those noted so far.
    pub fn with(self, t: usize) -> Lost
        ensures value { result ≡ noted (t ∷ listed self) }
    {
        match self {
            Lost::Nothing => Lost::One(t),
            Lost::One(i) => Lost::Two(t, i),
            Lost::Two(i, _) => Lost::Two(t, i),
        }
    }

    // Notes column `t`, which is above those noted so far, unless it is present. This is in place, since a copy for each column is slow.
    pub fn note(&mut self, t: usize, present: bool)
        ensures after { self.new ≡ (if present then self.old else noted (t ∷ listed self.old)) }
    {
        if !present {
            *self = self.with(t);
        }
    }

    // The way to the missing column `want` of a stripe of `k` data columns; `p` says whether P is present.
    pub fn way(self, k: usize, p: bool, want: usize) -> Way
        ensures value { result ≡ way k (listed self) p want }
    {
        match self {
            Lost::Nothing => { if want == k { Way::Plain } else { Way::Mixed } }
            Lost::One(i) => way_with_one(k, i, p, want),
            Lost::Two(i, j) => {
                if want == i {
                    Way::Pair(i, j)
                } else {
                    Way::Pair(j, i)
                }
            }
        }
    }
}

// The way where `i` is the one missing data column.
fn way_with_one(k: usize, i: usize, p: bool, want: usize) -> Way
    ensures value { result ≡ way k (listed (Lost.One i)) p want }
{
    if want < k {
        if p { Way::Plain } else { Way::Unmixed(i) }
    } else {
        if p {
            Way::QWithout(i)
        } else {
            Way::PWithout(i)
        }
    }
}
