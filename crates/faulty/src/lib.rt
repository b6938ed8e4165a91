// The fault layer: a member over any member, which fails by a plan.
//
// Where two entries are on one block, each does what it would do alone: an accepted write ends every active entry of kind 2 there,
// and a write that the layer refuses marks every active entry of kind 3 there. An entry of kind 2 or 3 on a block beyond the count
// never shows, since the number is refused first; the block of kind 1 does not matter. An entry whose round is over when it is
// added never becomes active. After fresh a block is as readable as what is below, also one that had refused a write; the count
// of ticks goes on.
#![tactic(auto)]

ghost use Rattle.std.specs.Prelude.{◌≡◌, ◌<◌, length, if◌then◌else◌, nat_eq};
ghost use Rattle.member.specs.Faults.{cause_number, numbers, refusal, raised};
ghost use Rattle.member.specs.Meaning.{write_refusal};
ghost use Rattle.faultplan.specs.declared.entry.Event.TheVariants.{Refused};
ghost use Rattle.faultplan.specs.Entries.{kind_of};
ghost use Rattle.faultplan.specs.Plans.{add_answer, room_answer, empty, with_entry, told};
ghost use Rattle.faultplan.specs.Layers.{own_origin, withheld, only_gone, Planned, planned, layer_meaning, layer_seen, passed, layer_wrote, layer_ticked, layer_renewed};
ghost use Rattle.faultplan.proofs.Layers.{layer_lawful};
ghost use Rattle.std.proofs.Common.{rules};

use code::BLOCK;
use faultplan::entry::{Check, Event, Kind};
use faultplan::plan::{Plan, PlanRefusal};
use member::{Cause, Fault, Member, admit};

#[derive(Drop)]
pub struct FaultLayer<M> {
    below: M,
    plan: Plan,
}

// The fault of a member that is gone, if the answer is one.
fn if_gone(answer: Result<(), Fault>) -> Result<(), Fault>
    ensures value { refusal result ≡ only_gone (refusal answer) }
{
    match answer {
        Err(fault) if fault.cause == Cause::Gone => Err(fault),
        _ => Ok(()),
    }
}

impl<M: Member> FaultLayer<M> {
    // A layer with no entries.
    pub fn new(below: M) -> FaultLayer<M>
        ensures below { result.below ≡ below }
        ensures plan { result.plan ≡ empty }
    {
        FaultLayer {
            below,
            plan: Plan::new(),
        }
    }

    // What is below, as it is; the plan is let go.
    pub fn into_below(self) -> M
        ensures value { result ≡ self.below }
    {
        let FaultLayer { below, plan: _ } = self;
        below
    }

    // Plans a fault of the kind with this number, active from this round on. There are at most sixteen, ended ones counted. The kind
    // comes as its number, since every number is taken: a `Kind` would ask more of callers.
    pub fn add(&mut self, round: usize, kind: usize, block: usize) -> Result<(), PlanRefusal>
        ensures answered { add_answer result ≡ room_answer self.old.plan }
        ensures plan { self.new.plan ≡ with_entry self.old.plan round (kind_of kind) block }
        ensures below { self.new.below ≡ self.old.below }
    {
        self.plan.add(round, Kind::from(kind), block)
    }

    // A fault of this layer's own.
    fn own(&self, cause: Cause, block: usize) -> Fault
        ensures value { numbers result ≡ raised cause (own_origin (M.Member.meaning (M.Member.state self.now.below)) block) }
    {
        Fault {
            cause,
            height: self.height(),
            block,
        }
    }

    // Refuses a call on a block that is not to go below, by the check that it asks for. The block stands beside the check: to take it
    // from the check would need a second enum, of those checks that name a block.
    fn withhold(&self, check: Check, at: usize) -> Result<(), Fault>
        requires there { at < (M.Member.meaning (M.Member.state self.now.below)).count }
        ensures answered { refusal result ≡ withheld self.now.plan (M.Member.meaning (M.Member.state self.now.below)) check at }
    {
        if self.plan.fails(Check::Present) {
            return Err(self.own(Cause::Gone, at));
        }
        if self.plan.fails(check) {
            if_gone(self.below.look(at))?;
            return Err(self.own(check.cause(), at));
        }
        Ok(())
    }

    // Hands a write on. An accepted one mends the block.
    fn pass(&mut self, block: usize, bytes: &[u8]) -> Result<(), Fault>
        ensures answered { refusal result ≡ write_refusal (M.Member.meaning (M.Member.state self.old.below)) block (length bytes.now) }
        ensures exact { planned (M.Member.state self.new.below) self.new.plan ≡ passed M.Member.meaning M.Member.wrote (planned (M.Member.state self.old.below) self.old.plan) block bytes.now }
    {
        self.below.write(block, bytes)?;
        self.plan.tell(Event::Accepted(block));
        Ok(())
    }

    // Notes a write that the layer refused. One refused with 3 spoils the block.
    fn stop(&mut self, block: usize, fault: Fault)
        ensures below { self.new.below ≡ self.old.below }
        ensures plan { self.new.plan ≡ (if nat_eq (cause_number fault.cause) 3 then told (Refused block) self.old.plan else self.old.plan) }
    {
        if fault.cause == Cause::Unwritable {
            self.plan.tell(Event::Refused(block));
        }
    }
}

impl<M: Member> Member for FaultLayer<M> {
    ghost State = { Planned M.Member.State };

    ghost state = { λ x. planned (M.Member.state x.below) x.plan };

    ghost sound = { λ s. M.Member.sound s.below };

    ghost meaning = { layer_meaning M.Member.meaning };

    ghost seen = { layer_seen M.Member.meaning M.Member.seen };

    ghost wrote = { layer_wrote M.Member.meaning M.Member.wrote };

    ghost ticked = { layer_ticked M.Member.ticked };

    ghost renewed = { layer_renewed M.Member.renewed };

    ghost holds = { Prim.search rules };

    ghost lawful = { let M' = M.Member in
        layer_lawful M'.sound M'.meaning M'.seen M'.wrote M'.ticked M'.renewed M.Member.lawful };

    fn count(&self) -> usize {
        self.below.count()
    }

    fn height(&self) -> u8 {
        self.below.height().saturating_add(1)
    }

    fn look(&self, block: usize) -> Result<(), Fault> {
        admit(self.count(), self.height(), block, BLOCK)?;
        self.withhold(Check::Readable(block), block)?;
        self.below.look(block)
    }

    fn read(&mut self, block: usize, buffer: &mut [u8]) -> Result<(), Fault> {
        admit(self.count(), self.height(), block, buffer.len())?;
        self.withhold(Check::Readable(block), block)?;
        self.below.read(block, buffer)
    }

    fn write(&mut self, block: usize, bytes: &[u8]) -> Result<(), Fault> {
        admit(self.count(), self.height(), block, bytes.len())?;
        match self.withhold(Check::Writable(block), block) {
            Ok(()) => self.pass(block, bytes),
            Err(fault) => {
                self.stop(block, fault);
                Err(fault)
            }
        }
    }

    fn tick(&mut self) {
        self.below.tick();
        self.plan.tick();
    }

    fn fresh(&mut self) {
        self.plan.tell(Event::Fresh);
        self.below.fresh();
    }
}
