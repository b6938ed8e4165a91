// Layouts: on which slot each column of a stripe lies.
#![tactic(auto)]

ghost use Rattle.std.specs.Prelude.{◌≡◌, ℕ};
ghost use Rattle.layout.specs.Placing.{Placing, rotated, unrotated};
ghost use Rattle.std.proofs.Common.{rules};
ghost use Rattle.layout.specs.Turns.{turning};

// A layout, for any number of slots and any stripe. A number that is not below the number of slots is answered unchanged.
pub trait Layout {
    ghost slot: { Self → ℕ → ℕ → ℕ → ℕ };

    ghost column: { Self → ℕ → ℕ → ℕ → ℕ };

    // The slot of a column of stripe `s`, over `n` slots.
    fn slot_of(&self, n: usize, s: usize, c: usize) -> usize
        ensures value { result ≡ slot self.now n s c };

    // The column of stripe `s` that a slot has, over `n` slots.
    fn column_of(&self, n: usize, s: usize, i: usize) -> usize
        ensures value { result ≡ column self.now n s i };

    ghost lawful: { (l : Self) (n s : ℕ) → Placing n (slot l n s) (column l n s) };
}

// Every stripe lies alike: column c on slot c.
#[derive(Clone, Copy)]
pub struct Standing;

impl Layout for Standing {
    ghost slot = { λ _ n s c. c };

    ghost column = { λ _ n s i. i };

    ghost lawful = { Prim.search rules };

    fn slot_of(&self, _n: usize, _s: usize, c: usize) -> usize {
        c
    }

    fn column_of(&self, _n: usize, _s: usize, i: usize) -> usize {
        i
    }
}

// Each stripe lies one slot further than the one before, so that no slot has all the parities.
#[derive(Clone, Copy)]
pub struct Rotating;

impl Layout for Rotating {
    ghost slot = { λ _. rotated };

    ghost column = { λ _. unrotated };

    ghost lawful = { λ l n s. turning n s };

    fn slot_of(&self, n: usize, s: usize, c: usize) -> usize {
        if c >= n {
            return c;
        }
        let turn = s % n;
        // Two branches and no `(c + turn) % n`: of the largest `n`, that sum need not fit.
        if c < n - turn {
            c + turn
        } else {
            c - (n - turn)
        }
    }

    fn column_of(&self, n: usize, s: usize, i: usize) -> usize {
        if i >= n {
            return i;
        }
        let turn = s % n;
        if i < turn { i + (n - turn) } else { i - turn }
    }
}
