// The diagonal codes: a block as rows counted modulo a prime, and what RDP and EVENODD share of their arithmetic.
#![tactic(auto)]

ghost use Rattle.std.specs.Prelude.{◌≡◌, ℕ, ◌+◌, ◌-◌, ◌*◌, ◌%◌, ◌<◌, ◌≤◌, length, ◌≢◌};
ghost use Rattle.std.specs.List.{between};
ghost use Rattle.std.proofs.Math.Seq.{paste};
ghost use Rattle.code.specs.Blocks.{◌⊕◌, onto};
ghost use Rattle.prime.specs.Primes.{Prime};
ghost use Rattle.prime.specs.Rows.{cell, shifted, repeated, everywhere, row_sums};
ghost use Rattle.prime.specs.Diagonals.{closed, unadjusted_block, unpaired_block};

use code::BLOCK;
use code::xor::xor_run;

// Two types, and not one with a parameter: each method of the one differs from the other's by more than a size or a constant.
pub mod evenodd;
pub mod rdp;

// Room for the rows of a block and one row more: a row is at most a block.
const CLOSED: usize = 2 * BLOCK;

// A block as `prime - 1` rows of `width` bytes, all rows counted modulo `prime`; row `prime - 1` is zeros and lies in no block.
#[derive(Clone, Copy)]
struct Grid {
    prime: usize,
    width: usize,
    ghost indivisible: { Prime prime },
    ghost odd: { prime % 2 ≡ 1 },
    ghost whole: { (prime - 1) * width ≡ 512 },
}

impl Grid {
    // `prime - 1` rows of `width` bytes.
    fn new(prime: usize, width: usize) -> Grid
        requires indivisible { Prime prime }
        requires odd { prime % 2 ≡ 1 }
        requires whole { (prime - 1) * width ≡ 512 }
        ensures prime { result.prime ≡ prime }
        ensures width { result.width ≡ width }
    {
        Grid { prime, width }
    }

    // The prime 17, with rows of 32 bytes.
    fn of_17() -> Grid
        ensures prime { result.prime ≡ 17 }
        ensures width { result.width ≡ 32 }
    {
        Grid::new(17, 32)
    }

    // Brings a row number below twice the prime back below the prime. No other place wraps a row number.
    fn fold(&self, x: usize) -> usize
        requires below { x < 2 * self.now.prime }
        ensures value { result ≡ x % self.now.prime }
    {
        if x < self.prime { x } else { x - self.prime }
    }

    // Row `r` of `block`.
    fn row<'a>(&self, r: usize, block: &'a [u8]) -> &'a [u8]
        requires within { r * self.now.width + self.now.width ≤ length block.now }
        ensures value { result.now ≡ between (r * self.now.width) (r * self.now.width + self.now.width) block.now }
    {
        let at = r * self.width;
        &block[at..at + self.width]
    }

    // Writes `row` over row `k` of `block`.
    fn put_row(&self, k: usize, row: &[u8], block: &mut [u8])
        requires sized { length row.now ≡ self.now.width }
        requires within { k * self.now.width + self.now.width ≤ length block.old }
        ensures after { block.new ≡ paste block.old (k * self.now.width) row.now self.now.width }
    {
        let at = k * self.width;
        block[at..at + self.width].copy_from_slice(row);
    }

    // Adds to `into` the block whose row r is row r + s of `block`.
    // Since the rows lie one after another, that is two long runs: from row s on to the start, and below row s - 1 to the end.
    fn add_shifted(&self, s: usize, block: &[u8; BLOCK], into: &mut [u8; BLOCK])
        requires shift { s < self.now.prime }
        ensures after { into.new ≡ into.old ⊕ shifted self.now.prime self.now.width s block.now }
    {
        let from = s * self.width;
        xor_run(&block[from..BLOCK], into);
        let rest = s.saturating_sub(1) * self.width;
        xor_run(&block[0..rest], &mut into[BLOCK - rest..BLOCK]);
    }

    // A block whose every row is `row`: what is filled so far is copied behind itself, so that the copies are few and long. Row by
    // row (tried) it is slower where the width is no constant to the compiler: bars of speed that this meets are then missed.
    fn repeat(&self, row: &[u8]) -> [u8; BLOCK]
        requires sized { length row.now ≡ self.now.width }
        ensures value { result ≡ repeated self.now.prime self.now.width row.now }
    {
        let mut block = [0u8; BLOCK];
        self.put_row(0, row, &mut block);
        let mut done = self.width;
        while done < BLOCK {
            let more = done.min(BLOCK - done);
            block.copy_within(0..more, done);
            done += more;
        }
        block
    }

    // Adds row `r` of `source` to every row of `into`; row `prime - 1` is zeros, and adds nothing.
    fn add_row_everywhere(&self, r: usize, source: &[u8; BLOCK], into: &mut [u8; BLOCK])
        requires row { r < self.now.prime }
        ensures after { into.new ≡ into.old ⊕ everywhere self.now.prime self.now.width r source.now }
    {
        if r < self.prime - 1 {
            xor_run(&self.repeat(self.row(r, source)), into);
        }
    }

    // Adds every row of `block` to the first row of `into`; further bytes of `into` stay.
    fn sum_rows(&self, block: &[u8; BLOCK], into: &mut [u8])
        ensures after { into.new ≡ onto into.old (row_sums self.now.width block.now (self.now.prime - 1)) }
    {
        for row in block.chunks_exact(self.width) {
            xor_run(row, into);
        }
    }

    // Adds the sum of all rows of `buffer` to each of its rows.
    fn unadjust(&self, buffer: &mut [u8; BLOCK])
        ensures after { buffer.new ≡ unadjusted_block self.now.prime self.now.width buffer.old }
    {
        let mut sum = [0u8; BLOCK];
        self.sum_rows(buffer, &mut sum);
        xor_run(&self.repeat(self.row(0, &sum)), buffer);
    }

    // The rows of `block` and, as row `prime - 1`, their sum; what lies behind that row plays no part.
    fn close(&self, block: &[u8; BLOCK]) -> [u8; CLOSED]
        ensures long { length result ≡ 1024 }
        ensures cells { (r t : ℕ) → r < self.now.prime → t < self.now.width → cell self.now.width result r t ≡ closed self.now.prime (λ k. cell self.now.width block.now k t) r }
    {
        let mut sum = [0u8; BLOCK];
        self.sum_rows(block, &mut sum);
        let mut rows = [0u8; CLOSED];
        xor_run(block, &mut rows);
        self.put_row(self.prime - 1, self.row(0, &sum), &mut rows);
        rows
    }

    // Replaces `buffer` by the block whose shifts by `u` and by `v` add up to it.
    // Two rows of that block, v - u apart, add up to one row of the closed buffer. So a walk in steps of v - u from row `prime - 1`,
    // which is zeros, meets every row once, as the prime has no divisor, and what it has added up is the row that it stands at.
    fn solve_pair(&self, u: usize, v: usize, buffer: &mut [u8; BLOCK])
        requires some { 0 < u }
        requires low { u ≤ self.now.prime }
        requires other { v ≤ self.now.prime }
        requires apart { u % self.now.prime ≢ v % self.now.prime }
        ensures after { buffer.new ≡ unpaired_block self.now.prime self.now.width u v buffer.old }
    {
        let given = self.close(buffer);
        let step = self.fold(v + (self.prime - u));
        let mut sum = [0u8; BLOCK];
        let mut k = self.prime - 1;
        let mut r = self.fold(self.prime - 1 + (self.prime - u));
        for _m in 0..self.prime - 1 {
            xor_run(self.row(r, &given), &mut sum);
            k = self.fold(k + step);
            r = self.fold(r + step);
            self.put_row(k, self.row(0, &sum), buffer);
        }
    }
}
