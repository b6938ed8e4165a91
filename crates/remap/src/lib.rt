// The remap layer: a member over any other, whose last blocks are spares. A block that refuses a write is moved to a spare.
#![tactic(auto)]

ghost use Rattle.std.specs.Prelude.{◌≡◌, ◌≤◌, length};
ghost use Rattle.member.specs.Faults.{numbers, refusal};
ghost use Rattle.member.specs.Meaning.{most_blocks, own, Good, put_refusal};
ghost use Rattle.remap.specs.Places.{table_of, unmoved, kept_back, place, left};
ghost use Rattle.remap.specs.Remapped.{remapped, own_count, Layer, layer, LayerSound, layer_meaning, layer_seen, layer_wrote, layer_ticked, layer_renewed, tries};
ghost use Rattle.remap.specs.Rules.{PlacesApart, MovesToLowest};
ghost use Rattle.remap.specs.Tables.{table_within};
ghost use Rattle.remap.specs.Laws.{layer_lawful};

use crate::moves::Moves;
use code::BLOCK;
use member::{Cause, Fault, Member, admit, refused_with};

mod moves;

// A member that stands in for another. It has the blocks below but for the spares, each at its own number until a write is refused
// there with cause 3; then the block moves to the lowest spare never used, and so on, until one takes the write.
#[derive(Drop)]
pub struct Remap<M> {
    below: M,
    moves: Moves,
}

impl<M: Member> Remap<M> {
    // A layer over `below` that keeps its last blocks as spares: as many as asked, but at most 16, and at most all.
    pub fn new(below: M, spares: usize) -> Remap<M>
        ensures below { result.below ≡ below }
        ensures table { table_of result.moves ≡ unmoved (kept_back spares (M.Member.meaning (M.Member.state below)).count) }
    {
        let count = below.count();
        Remap {
            below,
            moves: Moves::new(spares.min(count)),
        }
    }

    // What the layer stood over.
    pub fn into_below(self) -> M
        ensures value { result ≡ self.below }
    {
        let Remap { below, moves: _ } = self;
        below
    }

    // A block that a write moves goes to the lowest spare that takes the write.
    pub fn moves_to_lowest(&self)
        ensures stands { MovesToLowest M.Member.meaning M.Member.sound M.Member.wrote }
    {}

    // How many blocks the layer has, which is also where its first spare stands below.
    fn first(&self) -> usize
        ensures value { result ≡ own_count (table_of self.now.moves) (M.Member.meaning (M.Member.state self.now.below)) }
        ensures few { result ≤ most_blocks }
    {
        self.count()
    }

    // Where a block stands below.
    fn place(&self, block: usize) -> usize
        ensures value { result ≡ place (table_of self.now.moves) (own_count (table_of self.now.moves) (M.Member.meaning (M.Member.state self.now.below))) block }
    {
        match self.moves.given(block) {
            Some(spare) => self.first() + spare,
            None => block,
        }
    }

    // A fault that the layer raises itself.
    fn own(&self, cause: Cause, block: usize) -> Fault
        ensures value { numbers result ≡ own (remapped (table_of self.now.moves) (M.Member.meaning (M.Member.state self.now.below))) cause block }
    {
        Fault {
            cause,
            height: self.height(),
            block,
        }
    }

    // Writes a block where it stands, or at the next spare that takes it.
    fn put(&mut self, block: usize, bytes: &[u8]) -> Result<(), Fault>
        requires good { Good (own_count (table_of self.old.moves) (M.Member.meaning (M.Member.state self.old.below))) block (length bytes.now) }
        ensures answered { refusal result ≡ put_refusal (remapped (table_of self.old.moves) (M.Member.meaning (M.Member.state self.old.below))) block }
        ensures exact { layer (M.Member.state self.new.below) (table_of self.new.moves) ≡ tries M.Member.meaning M.Member.wrote (own_count (table_of self.old.moves) (M.Member.meaning (M.Member.state self.old.below))) block bytes.now (left (table_of self.old.moves)) (M.Member.state self.old.below) (table_of self.old.moves) }
    {
        let first = self.first();
        let mut at = self.place(block);
        loop {
            let answer = self.below.write(at, bytes);
            if !refused_with(&answer, Cause::Unwritable) {
                return answer;
            }
            let Some(spare) = self.moves.take(block) else {
                return Err(self.own(Cause::Unwritable, block));
            };
            at = first + spare;
        }
    }
}

impl<M: Member> Member for Remap<M> {
    ghost State = { Layer M.Member.State };

    ghost state = { λ x. layer (M.Member.state x.below) (table_of x.moves) };

    ghost sound = { λ s. LayerSound M.Member.sound s };

    ghost meaning = { λ s. layer_meaning M.Member.meaning s };

    ghost seen = { λ s b n. layer_seen M.Member.meaning M.Member.seen s b n };

    ghost wrote = { λ s b v. layer_wrote M.Member.meaning M.Member.wrote s b v };

    ghost ticked = { λ s. layer_ticked M.Member.ticked s };

    ghost renewed = { λ s. layer_renewed M.Member.renewed s };

    ghost holds = { λ x. record { below = M.Member.holds x.below; within = table_within x.moves } };

    ghost lawful = { layer_lawful M.Member.sound M.Member.meaning M.Member.seen M.Member.wrote M.Member.ticked M.Member.renewed
        M.Member.lawful };

    fn count(&self) -> usize {
        self.below.count().saturating_sub(self.moves.spares())
    }

    fn height(&self) -> u8 {
        self.below.height().saturating_add(1)
    }

    fn look(&self, block: usize) -> Result<(), Fault> {
        admit(self.count(), self.height(), block, BLOCK)?;
        let at = self.place(block);
        self.below.look(at)
    }

    fn read(&mut self, block: usize, buffer: &mut [u8]) -> Result<(), Fault> {
        admit(self.count(), self.height(), block, buffer.len())?;
        let at = self.place(block);
        self.below.read(at, buffer)
    }

    fn write(&mut self, block: usize, bytes: &[u8]) -> Result<(), Fault> {
        admit(self.count(), self.height(), block, bytes.len())?;
        self.put(block, bytes)
    }

    fn tick(&mut self) {
        self.below.tick();
    }

    fn fresh(&mut self) {
        self.moves.forget();
        self.below.fresh();
    }
}

// No two blocks stand at one place, whatever was moved.
pub fn places_apart()
    ensures stands { PlacesApart }
{}
