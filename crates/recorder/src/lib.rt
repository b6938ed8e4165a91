// The recorder that a script is replayed on: six slots, rotating, each a remap layer with two spares over a fault layer over a cell
// or over an image of eight blocks of zeros.
#![tactic(auto)]

ghost use Rattle.std.specs.Prelude.{◌≡◌, ◌<◌, true, false, IfOk, Some, string_bytes, OnOk};
ghost use Rattle.script.specs.Format.{is_script, entry_count, operation_count, code_at};
ghost use Rattle.remap.specs.Places.{table_of, unmoved, kept_back};
ghost use Rattle.recorder.specs.Planned.{with_planned, planned};
ghost use Rattle.volume.specs.Slots.{slots_in};
ghost use Rattle.recorder.specs.Slots.{slot_meaning, image_slot, image_slots, recorder_slots, stack_means, image_means};
ghost use Rattle.recorder.specs.Runs.{ActStep, AllLines, Replayed, coding_of};
ghost use Rattle.script.specs.Text.{bad_script};

use acts::{act, numbers};
use bank::Bank;
use bank::chain::Link;
use bank::empty::NoMembers;
use code::Code;
use diagonal::evenodd::EvenOdd;
use diagonal::rdp::Rdp;
use faulty::FaultLayer;
use galois::Pq;
use layout::Rotating;
use member::Member;
use member::cell::Cell;
use member::image::Image;
use remap::Remap;
use runs::any_volume::AnyVolume;
use runs::format;
use script::line::{Line, bad_script, push_line};
use script::parts::{CodeName, Entry};
use script::source::Script;
use std::alloc::{AllocError, Global};
use volume::volume::blank::Blank;

mod acts;

// How many bytes an image has: eight blocks.
const IMAGE: usize = 4096;

// How many spares each slot has.
const SPARES: usize = 2;

type Stack<M> = Remap<FaultLayer<M>>;

type Images = Link<Stack<Image>, Link<Stack<Image>, Link<Stack<Image>, NoMembers>>>;

type Slots = Link<Stack<Cell>, Link<Stack<Cell>, Link<Stack<Cell>, Images>>>;

// Adds a script's entry to a layer if it is for that slot. A plan has room for all entries of a script.
fn plan_entry<M: Member>(layer: &mut FaultLayer<M>, fault: Entry, slot: usize)
    ensures plan { layer.new.plan ≡ with_planned (Some fault) slot layer.old.plan }
    ensures below { layer.new.below ≡ layer.old.below }
{
    if fault.slot == slot {
        let _ = layer.add(fault.round, usize::from(fault.kind), fault.block);
    }
}

// The layers of a slot over a member, with the script's entries for the slot.
fn stack<M: Member>(below: M, script: &Script, slot: usize) -> Stack<M>
    ensures below { result.below.below ≡ below }
    ensures plan { result.below.plan ≡ planned script.now.bytes.items slot (entry_count script.now.bytes.items) }
    ensures table { table_of result.moves ≡ unmoved (kept_back 2 (M.Member.meaning (M.Member.state below)).count) }
    ensures meaning { stack_means (λ m. M.Member.meaning (M.Member.state m)) result ≡ slot_meaning (M.Member.meaning (M.Member.state below)) script.now.bytes.items slot }
{
    let mut layer = FaultLayer::new(below);
    // An iterator of entries would count the places too, since the bytes of an entry lie apart.
    for i in 0..script.entries() {
        plan_entry(&mut layer, script.entry(i).unwrap(), slot);
    }
    Remap::new(layer, SPARES)
}

// An image of zeros under its layers.
fn image(heap: Global, script: &Script, slot: usize) -> Result<Stack<Image>, AllocError>
    ensures made { IfOk result (λ s. image_means s ≡ image_slot script.now.bytes.items slot) }
{
    let zeros = vec![in heap; 0u8; IMAGE]?;
    Ok(stack(Image::new(zeros), script, slot))
}

// A slot before others.
fn link<M, B>(first: M, rest: B) -> Link<M, B>
    ensures linked { result ≡ record { first = first; rest = rest } }
{
    Link { first, rest }
}

// The slots from 3 on.
fn images(heap: Global, script: &Script) -> Result<Images, AllocError>
    ensures made { IfOk result (λ b. slots_in ⟦<Images as Bank>⟧ b ≡ image_slots script.now.bytes.items) }
{
    let slot_3 = image(heap, script, 3)?;
    let slot_4 = image(heap, script, 4)?;
    let slot_5 = image(heap, script, 5)?;
    Ok(link(slot_3, link(slot_4, link(slot_5, NoMembers))))
}

// All slots, with the script's entries. Those for slots that there are not are dropped.
fn slots(heap: Global, script: &Script) -> Result<Slots, AllocError>
    ensures made { IfOk result (λ b. slots_in ⟦<Slots as Bank>⟧ b ≡ recorder_slots script.now.bytes.items) }
{
    let from_3 = images(heap, script)?;
    let slot_0 = stack(Cell::new(), script, 0);
    let slot_1 = stack(Cell::new(), script, 1);
    let slot_2 = stack(Cell::new(), script, 2);
    Ok(link(slot_0, link(slot_1, link(slot_2, from_3))))
}

// Does operation `i` of a script and appends its line.
fn step<V: AnyVolume>(
    volume: &mut V,
    script: &Script,
    i: usize,
    out: &mut String,
) -> Result<(), AllocError>
    requires within { i < operation_count script.now.bytes.items }
    ensures same { V.shape volume.new ≡ V.shape volume.old }
    ensures made { OnOk result (ActStep (V.shape volume.old) script.now.bytes.items i (V.state volume.old) (V.state volume.new) (string_bytes out.old) (string_bytes out.new)) }
{
    let operation = script.operation(i).unwrap();
    let (refusal, value) = numbers(act(volume, operation));
    let line = Line {
        position: i,
        operation: operation.number,
        refusal,
        value,
    };
    push_line(out, line)
}

// The lines of a script's operations on a volume.
fn lines<V: AnyVolume + Drop>(
    heap: Global,
    mut volume: V,
    script: &Script,
) -> Result<String, AllocError>
    ensures made { IfOk result (λ s. AllLines (V.shape volume) script.now.bytes.items (V.state volume) (string_bytes s)) }
{
    let mut out = String::new(heap);
    // The line of an operation has its place, so that an iterator of operations would only count it once more.
    for i in 0..script.operations() {
        step(&mut volume, script, i, &mut out)?;
    }
    Ok(out)
}

// The lines of a script's operations on a recorder with that code.
fn run<C: Code + Drop>(heap: Global, code: C, script: &Script) -> Result<String, AllocError>
    ensures made { IfOk result (λ s. Replayed (C.Code.coding code) script.now.bytes.items (string_bytes s)) }
{
    let bank = slots(heap, script)?;
    let volume = format(Blank::new(code, Rotating, bank));
    lines(heap, volume, script)
}

// The text of a replay: a line for each operation, or `bad script` alone.
pub fn replay(heap: Global, bytes: Vec<u8>) -> Result<String, AllocError>
    ensures lines { is_script bytes.items ≡ true → IfOk result (λ s. Replayed (coding_of (code_at bytes.items)) bytes.items (string_bytes s)) }
    ensures bad { is_script bytes.items ≡ false → IfOk result (λ s. string_bytes s ≡ bad_script) }
{
    let Ok(script) = Script::parse(bytes) else {
        return bad_script(heap);
    };
    match script.code() {
        CodeName::Pq => run(heap, Pq, &script),
        CodeName::Rdp => run(heap, Rdp::of_17(), &script),
        CodeName::EvenOdd => run(heap, EvenOdd::of_17(), &script),
    }
}
