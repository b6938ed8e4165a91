// What the table answers, and how it changes.
ghost use Rattle.std.specs.Prelude.{◌≡◌, ◌≤◌, min};
ghost use Rattle.std.specs.Option.{unwrap_or};
ghost use Rattle.remap.specs.Places.{table_of, unmoved, given, next_spare, spare_taken};

use crate::moves::{MOST_SPARES, Moves};

impl Moves {
    // A table without moves, with as many spares as asked but at most 16.
    pub fn new(spares: usize) -> Moves
        ensures table { table_of result ≡ unmoved (min spares 16) }
    {
        Moves {
            spares: spares.min(MOST_SPARES),
            used: 0,
            from: [0; MOST_SPARES],
        }
    }

    // How many spares there are, used ones counted.
    pub fn spares(&self) -> usize
        ensures value { result ≡ (table_of self.now).spares }
        ensures few { result ≤ 16 }
    {
        self.spares
    }

    // The spare that the block was moved to last.
    pub fn given(&self, block: usize) -> Option<usize>
        ensures value { result ≡ given (table_of self.now).moves block }
        ensures few { unwrap_or result 0 ≤ 16 }
    {
        self.from[..self.used]
            .iter()
            .rposition(|from| *from == block)
    }

    // Gives the lowest spare never used to the block, and answers it; none, and no change, if all were used.
    pub fn take(&mut self, block: usize) -> Option<usize>
        ensures value { result ≡ next_spare (table_of self.old) }
        ensures after { table_of self.new ≡ spare_taken (table_of self.old) block }
    {
        if self.used >= self.spares {
            return None;
        }
        let spare = self.used;
        self.from[spare] = block;
        self.used = spare + 1;
        Some(spare)
    }

    // Forgets all moves.
    pub fn forget(&mut self)
        ensures after { table_of self.new ≡ unmoved (table_of self.old).spares }
    {
        self.used = 0;
    }
}
