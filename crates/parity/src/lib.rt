// What a stripe of k data columns with P and Q is, and the theorems on its recovery that hold of every lawful code.
#![tactic(auto)]

ghost use Rattle.parity.specs.Theorems.{Recovers, Unique, Free, Deltas, Writes};

// How a lost column is found from the plain sum (the present data columns and P) and the mixed sum (their mixings and Q).
// The numbers are data columns that are lost.
#[derive(Clone, Copy, PartialEq, Eq, Debug)]
pub enum Way {
    // the plain sum is the column: P, or the only lost data column where P is present
    Plain,
    // the mixed sum is the column: Q, where no data column is lost
    Mixed,
    // this data column, where P is lost too: the block whose mixing is the mixed sum
    Unmixed(usize),
    // P, where this data column is lost too
    PWithout(usize),
    // Q, where this data column is lost too
    QWithout(usize),
    // the first of two lost data columns
    Pair(usize, usize),
}

// With at most two columns missing, the recovered column is that of every content that fits.
pub fn recovers()
    ensures stands { Recovers }
{}

// Two contents that fit agree at each column that is present, and at every column where at most two are missing.
pub fn unique()
    ensures stands { Unique }
{}

// With a data column and at least two others missing, another content fits that differs there.
pub fn free()
    ensures stands { Free }
{}

// The parities of a content with one data column changed are the old ones with the difference added.
pub fn deltas()
    ensures stands { Deltas }
{}

// What fits after one data column was changed.
pub fn writes()
    ensures stands { Writes }
{}
