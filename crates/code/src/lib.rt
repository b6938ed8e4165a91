// What every code shares: blocks of 512 bytes, their exclusive or, the interface of a code and its refusals.
#![tactic(auto)]

ghost use Rattle.std.specs.Prelude.{◌≡◌, ℕ, ◌&&◌, is_ok, if◌then◌else◌};
ghost use Rattle.code.specs.Blocks.{◌⊕◌, block_size};
ghost use Rattle.code.specs.Codes.{Coding, Lawful};
ghost use Rattle.code.specs.Answers.{answer, sized, on_column, on_pair};

pub mod checks;
pub mod xor;

// How many bytes a block has.
pub const BLOCK: usize = 512;

// Why a call on blocks is refused. Lengths are looked at before columns.
#[derive(Clone, Copy, PartialEq, Eq, Debug)]
pub enum CodeRefusal {
    // a column that is not below the code's limit, or twice the same one
    Column,
    // a block or buffer that is not 512 bytes
    Length,
}

// A double-parity code: P is the ⊕ of the data columns, Q the ⊕ of each data column's mixing.
// A refused call leaves every buffer as it was.
pub trait Code {
    ghost coding: { Self → Coding };

    // How many data columns the code can have.
    fn limit(&self) -> usize
        ensures value { result ≡ (coding self.now).limit };

    // Adds the mixing `j` of `block` to `into`.
    fn mix_into(&self, j: usize, block: &[u8], into: &mut [u8]) -> Result<(), CodeRefusal>
        ensures answered { answer result ≡ on_column (coding self.now).limit j (sized block.now && sized into.old) }
        ensures after { into.new ≡ (if is_ok result then (into.old ⊕ (coding self.now).mix j block.now) else into.old) };

    // Replaces `buffer` by the block whose mixing `j` it is.
    fn unmix(&self, j: usize, buffer: &mut [u8]) -> Result<(), CodeRefusal>
        ensures answered { answer result ≡ on_column (coding self.now).limit j (sized buffer.old) }
        ensures after { buffer.new ≡ (if is_ok result then (coding self.now).unmix j buffer.old else buffer.old) };

    // Replaces `buffer` by the block whose mixings `i` and `j` add up to it.
    fn unpair(&self, i: usize, j: usize, buffer: &mut [u8]) -> Result<(), CodeRefusal>
        ensures answered { answer result ≡ on_pair (coding self.now).limit i j (sized buffer.old) }
        ensures after { buffer.new ≡ (if is_ok result then (coding self.now).unpair i j buffer.old else buffer.old) };

    ghost lawful: { (c : Self) → Lawful block_size (coding c) };
}
