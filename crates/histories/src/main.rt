// Two volumes driven by lists of calls, with an order of the first given to the second. Its lines are compared with lines worked out by
// hand.
#![tactic(auto)]

use bank::chain::Link;
use bank::empty::NoMembers;
use diagonal::rdp::Rdp;
use galois::Pq;
use layout::{Rotating, Standing};
use member::cell::Cell;
use runs::any_volume::AnyVolume;
use runs::{Answer, Call, Declined, close_all, format, run};
use shelf::Shelf;
use std::alloc::{AllocError, Global};
use volume::volume::blank::Blank;
use volume::volume::rebuilds::Order;

type Cells = Link<Cell, Link<Cell, Link<Cell, Link<Cell, NoMembers>>>>;

// A cell before others.
fn cell_before<B>(rest: B) -> Link<Cell, B> {
    Link {
        first: Cell::new(),
        rest,
    }
}

// Four cells: eight stripes of two data columns.
fn cells() -> Cells {
    cell_before(cell_before(cell_before(cell_before(NoMembers))))
}

// A line on what came of a call.
fn say(
    out: &mut String,
    place: usize,
    answer: &Result<Answer, Declined>,
) -> Result<(), AllocError> {
    match answer {
        Ok(answer) => writeln!(out, "{place} {answer}"),
        Err(declined) => writeln!(out, "{place} {declined}"),
    }
}

// Makes the calls, and appends a line on each answer.
fn tell<V: AnyVolume>(
    heap: Global,
    volume: &mut V,
    orders: &mut Vec<Order>,
    calls: &[Call],
    out: &mut String,
) -> Result<(), AllocError> {
    let log = run(heap, volume, orders, calls)?;
    for (place, answer) in log.iter().enumerate() {
        say(out, place, answer)?;
    }
    Ok(())
}

// A swap that is begun on the first volume, with refusals on the way. It is given two blocks to write, and a buffer that is none.
fn first_calls(block: Vec<u8>, other: Vec<u8>, long: Vec<u8>) -> [Call; 16] {
    [
        Call::Margin,
        Call::Write(5, block),
        Call::Replace(1),
        Call::Margin,
        Call::Read(5, 512),
        Call::Read(5, 511),
        Call::Open(1),
        Call::Open(1),
        Call::Replace(1),
        Call::Step(0),
        Call::Step(7),
        Call::Scrub(0),
        Call::Scrub(1),
        Call::Write(16, other),
        Call::Write(0, long),
        Call::Tick,
    ]
}

// The second volume is given the order of the first, which is for slot 1: it counts there as soon as that slot is open there, and closing
// it closes the slot.
fn second_calls() -> [Call; 10] {
    [
        Call::Step(0),
        Call::Replace(5),
        Call::Replace(1),
        Call::Open(1),
        Call::Step(0),
        Call::Step(1),
        Call::Step(1),
        Call::Close(0),
        Call::Close(0),
        Call::Open(1),
    ]
}

// On the first volume the slot is still open, and no order is left.
fn last_calls() -> [Call; 3] {
    [Call::Close(0), Call::Replace(1), Call::Read(5, 512)]
}

// Five images of two blocks each: two stripes of three data columns.
fn images(heap: Global) -> Result<Shelf, AllocError> {
    let buffer = vec![in heap; 0u8; 5120]?;
    Ok(Shelf::new(buffer, 5))
}

// The three lists, one after the other. Results are bound until the orders are closed, since none may be let fall.
fn show(heap: Global, out: &mut String) -> Result<(), AllocError> {
    let block = vec![in heap; 7u8; 512]?;
    let other = vec![in heap; 7u8; 512]?;
    let long = vec![in heap; 7u8; 513]?;
    let bank = images(heap)?;
    let first = first_calls(block, other, long);
    let mut one = format(Blank::new(Pq, Standing, cells()));
    let mut two = format(Blank::new(Rdp::of_17(), Rotating, bank));
    let mut orders = Vec::new(heap);
    let begun = tell(heap, &mut one, &mut orders, &first, out);
    let given = tell(heap, &mut two, &mut orders, &second_calls(), out);
    let ended = tell(heap, &mut one, &mut orders, &last_calls(), out);
    close_all(&mut two, orders);
    begun?;
    given?;
    ended
}

fn main(rt: HostRuntime) -> anyhow::Result<()> {
    let heap = rt.alloc();
    let mut out = String::new(heap);
    show(heap, &mut out)?;
    rt.print(out)?;
    Ok(())
}
