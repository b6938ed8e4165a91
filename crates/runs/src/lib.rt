// Runs of calls on a volume, and what is promised of them. A call names an order by its place among those at hand, which may be another
// volume's; none can be made up.
#![tactic(auto)]

ghost use Rattle.std.specs.Prelude.{◌≡◌, ℕ, ◌<◌, List, [], length, IfOk, vec_len, vec_capacity, OnErr};
ghost use Rattle.bank.specs.Slots.{told};
ghost use Rattle.contents.specs.Records.{idle_at};
ghost use Rattle.contents.specs.Changes.{FormatChanges};
ghost use Rattle.contents.specs.Shapes.{formed};
ghost use Rattle.volume.specs.Slots.{members_in, slots_in};
ghost use Rattle.history.specs.History.{Kept};
ghost use Rattle.volume.specs.Volumes.{shape, members, records};
ghost use Rattle.runs.specs.declared.Call.TheVariants.{Read as Reading, Open as Opening, Step as Stepping, Close as Closing};
ghost use Rattle.runs.specs.declared.Declined.TheVariants.{Refused};
ghost use Rattle.runs.specs.Obeying.{Obeyed, RoomKept};
ghost use Rattle.runs.specs.Told.{state, orders_after, events, orders_left, AllMade, GoesOn, ClosesOn};

use any_volume::AnyVolume;
use bank::Bank;
use code::{BLOCK, Code};
use contents::Refusal;
use layout::Layout;
use std::alloc::{AllocError, Global};
use volume::volume::Volume;
use volume::volume::blank::Blank;
use volume::volume::rebuilds::Order;

pub mod any_volume;
mod texts;

// A call on a volume.
#[derive(Drop)]
pub enum Call {
    Tick,
    // of a block, into a buffer of so many bytes
    Read(usize, usize),
    // to a block, of these bytes
    Write(usize, Vec<u8>),
    // of a stripe
    Scrub(usize),
    // of the member in a slot
    Replace(usize),
    // of a slot
    Open(usize),
    // by the order in this place
    Step(usize),
    // of the order in this place
    Close(usize),
    Margin,
}

// What a call was answered.
#[derive(Drop)]
pub enum Answer {
    Done,
    // the bytes that a read handed out
    Block([u8; BLOCK]),
    // missing columns after a write, a frontier or a margin
    Number(usize),
    // columns that a scrub mended, that were refused, and that are absent
    Counts(usize, usize, usize),
    // an order for this slot, which is now the last at hand
    Order(usize),
}

// Why a call has no answer.
#[derive(Clone, Copy, PartialEq, Eq, Debug)]
pub enum Declined {
    // the volume refused it
    Refused(Refusal),
    // no order is in that place, and no call was made
    NoOrder,
}

impl From<Refusal> for Declined {
    ghost from_gives = { λ x y. y ≡ Refused x };

    fn from(refusal: Refusal) -> Declined {
        Declined::Refused(refusal)
    }
}

// Reads a block into a buffer of so many bytes. One that is not a block's is refused, whichever its length.
fn read_into<V: AnyVolume>(volume: &mut V, block: usize, len: usize) -> Result<Answer, Declined>
    ensures obeyed { Obeyed V.AnyVolume volume.old [] (Reading block len) result volume.new }
{
    let mut held = [0u8; BLOCK];
    if len != BLOCK {
        volume.read(block, &mut held[..0])?;
        return Ok(Answer::Done);
    }
    volume.read(block, &mut held)?;
    Ok(Answer::Block(held))
}

// Opens a slot, and puts the order behind those at hand.
fn open_slot<V: AnyVolume>(
    volume: &mut V,
    orders: &mut Vec<Order>,
    slot: usize,
) -> Result<Answer, Declined>
    requires room { vec_len orders.old < vec_capacity orders.old }
    ensures obeyed { Obeyed V.AnyVolume volume.old orders.old.items (Opening slot) result volume.new }
    ensures orders { orders.new.items ≡ orders_after orders.old.items (Opening slot) result }
    ensures kept { RoomKept orders.old orders.new }
{
    let order = volume.open(slot)?;
    let at = order.slot();
    orders.push_reserved(order);
    Ok(Answer::Order(at))
}

// Steps by the order in a place.
fn step_by<V: AnyVolume>(
    volume: &mut V,
    orders: &Vec<Order>,
    place: usize,
) -> Result<Answer, Declined>
    ensures obeyed { Obeyed V.AnyVolume volume.old orders.now.items (Stepping place) result volume.new }
{
    let Some(order) = orders.get(place) else {
        return Err(Declined::NoOrder);
    };
    Ok(Answer::Number(volume.step(order)?))
}

// Closes the order in a place.
fn close_by<V: AnyVolume>(
    volume: &mut V,
    orders: &mut Vec<Order>,
    place: usize,
) -> Result<Answer, Declined>
    ensures obeyed { Obeyed V.AnyVolume volume.old orders.old.items (Closing place) result volume.new }
    ensures orders { orders.new.items ≡ orders_after orders.old.items (Closing place) result }
    ensures kept { RoomKept orders.old orders.new }
{
    if place >= orders.len() {
        return Err(Declined::NoOrder);
    }
    Ok(Answer::Number(volume.close(orders.remove(place))?))
}

// Makes one call, with room for one order more at hand.
fn obey<V: AnyVolume>(
    volume: &mut V,
    orders: &mut Vec<Order>,
    call: &Call,
) -> Result<Answer, Declined>
    requires room { vec_len orders.old < vec_capacity orders.old }
    ensures obeyed { Obeyed V.AnyVolume volume.old orders.old.items call.now result volume.new }
    ensures orders { orders.new.items ≡ orders_after orders.old.items call.now result }
    ensures kept { RoomKept orders.old orders.new }
{
    // A call is data of a history, which lists them and is compared with its answers: so one switch here, and no closures in their place.
    match call {
        Call::Tick => {
            volume.tick();
            Ok(Answer::Done)
        }
        Call::Read(block, len) => read_into(volume, *block, *len),
        Call::Write(block, bytes) => Ok(Answer::Number(volume.write(*block, bytes)?)),
        Call::Scrub(stripe) => {
            let (mended, refused, absent) = volume.scrub(*stripe)?;
            Ok(Answer::Counts(mended, refused, absent))
        }
        Call::Replace(slot) => {
            volume.replace(*slot)?;
            Ok(Answer::Done)
        }
        Call::Open(slot) => open_slot(volume, orders, *slot),
        Call::Step(place) => step_by(volume, orders, *place),
        Call::Close(place) => close_by(volume, orders, *place),
        Call::Margin => Ok(Answer::Number(volume.margin())),
    }
}

// Makes the calls in turn, with the orders at hand, and answers what came of each. Whatever history the volume has, what is promised of it
// goes on holding. Room for the answers and for new orders is got before the first call: without it nothing is changed.
pub fn run<V: AnyVolume>(
    heap: Global,
    volume: &mut V,
    orders: &mut Vec<Order>,
    calls: &[Call],
) -> Result<Vec<Result<Answer, Declined>>, AllocError>
    ensures same { V.shape volume.new ≡ V.shape volume.old }
    ensures each { IfOk result (λ log. length log.items ≡ length calls.now) }
    ensures all { IfOk result (λ log. AllMade orders.old.items calls.now log.items) }
    ensures promise { IfOk result (λ log. GoesOn (V.shape volume.old) (V.state volume.old) (events orders.old.items calls.now log.items) (V.state volume.new)) }
    ensures orders { IfOk result (λ log. orders.new.items ≡ orders_left orders.old.items calls.now log.items) }
    ensures unchanged { OnErr result ((volume.new ≡ volume.old) × (orders.new.items ≡ orders.old.items)) }
{
    let mut log = Vec::with_capacity(heap, calls.len())?;
    orders.reserve(calls.len())?;
    for call in calls {
        let answer = obey(volume, orders, call);
        log.push_reserved(answer);
    }
    Ok(log)
}

// Formats a volume: its history begins.
pub fn format<C: Code, L: Layout, B: Bank>(blank: Blank<C, L, B>) -> Volume<C, L, B>
    ensures shape { shape C.Code L.Layout result ≡ formed (C.Code.coding blank.code) (L.Layout.slot blank.layout) (L.Layout.column blank.layout) (told (slots_in B.Bank blank.bank).size) (members_in B.Bank blank.bank) }
    ensures changes { FormatChanges (shape C.Code L.Layout result) (members_in B.Bank blank.bank) (members B.Bank result) }
    ensures idle { (i : ℕ) → i < (shape C.Code L.Layout result).slots → records result i ≡ idle_at (shape C.Code L.Layout result).stripes }
    ensures kept { Kept (shape C.Code L.Layout result) (state B.Bank result) [] (state B.Bank result) }
{
    blank.format()
}

// Closes all orders at hand by this volume, the last first, so that none is left.
pub fn close_all<V: AnyVolume>(volume: &mut V, mut orders: Vec<Order>)
    ensures same { V.shape volume.new ≡ V.shape volume.old }
    ensures closes { ClosesOn (V.shape volume.old) (V.state volume.old) orders.items (V.state volume.new) }
{
    while let Some(order) = orders.pop() {
        let _ = volume.close(order);
    }
    orders.destroy_empty();
}
