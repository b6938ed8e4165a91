// The calls on a volume as a trait, with what each adds to its history; and the volume of any code, layout and bank as one of it.
ghost use Rattle.std.specs.Prelude.{◌≡◌, ℕ, length, is_ok, IfOk, if◌then◌else◌};
ghost use Rattle.contents.specs.Refusals.{outcome};
ghost use Rattle.history.specs.Calls.{State, answered, Makes};
ghost use Rattle.history.specs.Calls.Call.{tick as ticks, read as reads, write as writes, scrub as scrubs, replace as replaces, open_slot as opens, step as steps, close as closes, margin as asks};
ghost use Rattle.history.specs.Calls.Answer.{done, bytes as block_of, number, counts, order as order_for};
ghost use Rattle.contents.specs.Records.{frontiers};
ghost use Rattle.contents.specs.Shapes.{Shape, Roomy};
ghost use Rattle.contents.specs.Answers.{read_leaves};
ghost use Rattle.contents.specs.Rebuilds.{fault_of, step_fault};
ghost use Rattle.volume.specs.Turns.{in_turn};
ghost use Rattle.volume.specs.Volumes.{shape, ordered};
ghost use Rattle.runs.specs.Told.{state, event, GoesOn};

use bank::Bank;
use code::Code;
use contents::Refusal;
use layout::Layout;
use volume::volume::Volume;
use volume::volume::rebuilds::Order;

// A volume, by what its calls answer and change.
pub trait AnyVolume {
    // What no call changes, and what calls change.
    ghost shape: { Self → Shape };

    ghost state: { Self → State };

    // What its bank is made of, and what a tick of a slot and a fresh member in a slot make of that.
    ghost Banked: { Type 0 };

    ghost banked: { Self → Banked };

    ghost ticked: { Banked → ℕ → Banked };

    ghost renewed: { Banked → ℕ → Banked };

    // Lets one unit of time pass.
    fn tick(&mut self)
        ensures exact { banked self.new ≡ in_turn ticked (shape self.old).slots (banked self.old) }
        ensures same { shape self.new ≡ shape self.old }
        ensures makes { Makes (shape self.old) (state self.old) ticks done (state self.new) }
        ensures goes { GoesOn (shape self.old) (state self.old) (event ticks done) (state self.new) };

    // Reads a block into a buffer.
    fn read(&mut self, block: usize, buffer: &mut [u8]) -> Result<(), Refusal>
        ensures after { buffer.new ≡ read_leaves (shape self.old) (state self.old).members (frontiers (state self.old).records) block buffer.old }
        ensures same { shape self.new ≡ shape self.old }
        ensures makes { Makes (shape self.old) (state self.old) (reads block (length buffer.old)) (answered (λ _. block_of buffer.new) (outcome result)) (state self.new) }
        ensures goes { GoesOn (shape self.old) (state self.old) (event (reads block (length buffer.old)) (answered (λ _. block_of buffer.new) (outcome result))) (state self.new) };

    // Gives a block these bytes.
    fn write(&mut self, block: usize, bytes: &[u8]) -> Result<usize, Refusal>
        ensures same { shape self.new ≡ shape self.old }
        ensures makes { Makes (shape self.old) (state self.old) (writes block bytes.now) (answered number (outcome result)) (state self.new) }
        ensures goes { GoesOn (shape self.old) (state self.old) (event (writes block bytes.now) (answered number (outcome result))) (state self.new) };

    // Writes the unreadable columns of a stripe anew.
    fn scrub(&mut self, stripe: usize) -> Result<(usize, usize, usize), Refusal>
        ensures same { shape self.new ≡ shape self.old }
        ensures makes { Makes (shape self.old) (state self.old) (scrubs stripe) (answered (λ x. counts x.0 x.1 x.2) (outcome result)) (state self.new) }
        ensures goes { GoesOn (shape self.old) (state self.old) (event (scrubs stripe) (answered (λ x. counts x.0 x.1 x.2) (outcome result))) (state self.new) };

    // Puts a fresh member in the place of a slot's.
    fn replace(&mut self, slot: usize) -> Result<(), Refusal>
        ensures exact { banked self.new ≡ (if is_ok result then renewed (banked self.old) slot else banked self.old) }
        ensures same { shape self.new ≡ shape self.old }
        ensures makes { Makes (shape self.old) (state self.old) (replaces slot) (answered (λ _. done) (outcome result)) (state self.new) }
        ensures goes { GoesOn (shape self.old) (state self.old) (event (replaces slot) (answered (λ _. done) (outcome result))) (state self.new) };

    // Opens a slot to be rebuilt, and hands out the order for it.
    fn open(&mut self, slot: usize) -> Result<Order, Refusal>
        ensures order { IfOk result (λ o. o.slot ≡ slot) }
        ensures same { shape self.new ≡ shape self.old }
        ensures makes { Makes (shape self.old) (state self.old) (opens slot) (answered order_for (ordered result)) (state self.new) }
        ensures goes { GoesOn (shape self.old) (state self.old) (event (opens slot) (answered order_for (ordered result))) (state self.new) };

    // Rebuilds one more stripe of the order's slot.
    fn step(&mut self, order: &Order) -> Result<usize, Refusal>
        ensures same { shape self.new ≡ shape self.old }
        ensures makes { Roomy (shape self.old) (state self.old).members → Makes (shape self.old) (state self.old) (steps order.now.slot) (answered number (outcome result)) (state self.new) }
        ensures fault { Roomy (shape self.old) (state self.old).members → fault_of result ≡ step_fault (shape self.old) (state self.old).members (state self.old).records order.now.slot }
        ensures goes { GoesOn (shape self.old) (state self.old) (event (steps order.now.slot) (answered number (outcome result))) (state self.new) };

    // Ends the rebuild of the order's slot. The order is used up.
    fn close(&mut self, order: Order) -> Result<usize, Refusal>
        ensures same { shape self.new ≡ shape self.old }
        ensures makes { Makes (shape self.old) (state self.old) (closes order.slot) (answered number (outcome result)) (state self.new) }
        ensures goes { GoesOn (shape self.old) (state self.old) (event (closes order.slot) (answered number (outcome result))) (state self.new) };

    // How many more slots may be lost.
    fn margin(&self) -> usize
        ensures makes { Makes (shape self.now) (state self.now) asks (number result) (state self.now) }
        ensures goes { GoesOn (shape self.now) (state self.now) (event asks (number result)) (state self.now) };

    // How many stripes there are.
    fn stripes(&self) -> usize
        ensures value { result ≡ (shape self.now).stripes };
}

impl<C: Code, L: Layout, B: Bank> AnyVolume for Volume<C, L, B> {
    ghost shape = { shape C.Code L.Layout };

    ghost state = { state B.Bank };

    ghost Banked = { B.Bank.State };

    ghost banked = { λ v. B.Bank.state v.bank };

    ghost ticked = { B.Bank.ticked };

    ghost renewed = { B.Bank.renewed };

    fn tick(&mut self) {
        Volume::tick(self);
    }

    fn read(&mut self, block: usize, buffer: &mut [u8]) -> Result<(), Refusal> {
        Volume::read(self, block, buffer)
    }

    fn write(&mut self, block: usize, bytes: &[u8]) -> Result<usize, Refusal> {
        Volume::write(self, block, bytes)
    }

    fn scrub(&mut self, stripe: usize) -> Result<(usize, usize, usize), Refusal> {
        Volume::scrub(self, stripe)
    }

    fn replace(&mut self, slot: usize) -> Result<(), Refusal> {
        Volume::replace(self, slot)
    }

    fn open(&mut self, slot: usize) -> Result<Order, Refusal> {
        Volume::open(self, slot)
    }

    fn step(&mut self, order: &Order) -> Result<usize, Refusal> {
        Volume::step(self, order)
    }

    fn close(&mut self, order: Order) -> Result<usize, Refusal> {
        Volume::close(self, order)
    }

    fn margin(&self) -> usize {
        Volume::margin(self)
    }

    fn stripes(&self) -> usize {
        Volume::stripes(self)
    }
}
