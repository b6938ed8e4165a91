// Fault layers without a remap layer: entries added while time passes, one layer over another, and where the count of ticks stops.
use crate::builds::single;
use crate::calls::{Call, Log, Step};
use bank::Bank;
use faulty::FaultLayer;
use member::Member;
use member::cell::Cell;
use std::alloc::AllocError;

// The calls after entries were added in round 1.
const LATE: [Step; 14] = [
    Step::On(0, Call::Count),
    Step::On(0, Call::Look(3)),
    Step::On(0, Call::Read(2, 512)),
    Step::On(0, Call::Read(8, 512)),
    Step::On(0, Call::Read(3, 511)),
    Step::Why("gone from round 2 on, until fresh"),
    Step::On(0, Call::Tick),
    Step::On(0, Call::Read(3, 512)),
    Step::On(0, Call::Write(4, 512, 31)),
    Step::On(0, Call::Fresh),
    Step::On(0, Call::Read(3, 512)),
    Step::On(0, Call::Write(4, 512, 31)),
    Step::On(0, Call::Read(4, 512)),
    Step::Why("ended entries count among the sixteen, and what is refused is not added"),
];

// Entries for the places that are left, and one too many.
const FILLING: [(usize, usize, usize); 14] = [
    (2, 9, 0),
    (2, 9, 0),
    (2, 9, 0),
    (2, 9, 0),
    (2, 9, 0),
    (2, 9, 0),
    (2, 9, 0),
    (2, 9, 0),
    (2, 9, 0),
    (2, 9, 0),
    (2, 9, 0),
    (2, 9, 0),
    (2, 9, 0),
    (2, 1, 0),
];

// The calls on a layer over another.
const DOUBLE: [Step; 24] = [
    Step::Why(
        "of one cause the upper's own fault comes first, and an accepted write mends the block in both",
    ),
    Step::On(0, Call::Read(0, 512)),
    Step::On(0, Call::Read(1, 512)),
    Step::On(0, Call::Write(0, 512, 32)),
    Step::On(0, Call::Read(0, 512)),
    Step::On(0, Call::Write(2, 512, 33)),
    Step::On(0, Call::Read(2, 512)),
    Step::On(0, Call::Write(3, 512, 34)),
    Step::On(0, Call::Read(3, 512)),
    Step::Why("round 1: the lower is gone, which comes before the upper's own 2 and 3"),
    Step::On(0, Call::Tick),
    Step::On(0, Call::Read(2, 512)),
    Step::On(0, Call::Write(2, 512, 35)),
    Step::On(0, Call::Read(8, 512)),
    Step::Why("round 2: the upper is gone too, and its own fault comes first"),
    Step::On(0, Call::Tick),
    Step::On(0, Call::Read(0, 512)),
    Step::Why("fresh renews both"),
    Step::On(0, Call::Fresh),
    Step::On(0, Call::Read(0, 512)),
    Step::On(0, Call::Write(2, 512, 36)),
    Step::On(0, Call::Read(2, 512)),
    Step::On(0, Call::Write(3, 512, 37)),
    Step::On(0, Call::Read(3, 512)),
];

// Entries of a past, the present and a later round, and then more than there are places.
fn show_single(log: &mut Log) -> Result<(), AllocError> {
    log.push_heading(
        "a fault layer over a cell, after one tick: an entry of this round is active at once, one of a past round never",
    )?;
    let mut bank = single(FaultLayer::new(Cell::new()));
    log.drive(&mut bank, &[Step::On(0, Call::Tick)])?;
    log.plan(&mut bank.first, &[(0, 1, 0), (1, 2, 3), (2, 1, 0)])?;
    log.drive(&mut bank, &LATE)?;
    log.plan(&mut bank.first, &FILLING)?;
    log.drive(
        &mut bank,
        &[Step::On(0, Call::Read(4, 512)), Step::On(0, Call::Fresh)],
    )?;
    log.plan(&mut bank.first, &[(2, 1, 0)])?;
    log.drive(&mut bank, &[Step::On(0, Call::Read(4, 512))])
}

// A layer over another, each with entries of its own.
fn show_double(log: &mut Log) -> Result<(), AllocError> {
    log.push_heading(
        "a fault layer over another: the entries of the lower, height 1, and then of the upper, height 2",
    )?;
    let mut lower = FaultLayer::new(Cell::new());
    log.plan(&mut lower, &[(0, 2, 0), (0, 2, 1), (0, 3, 3), (1, 1, 0)])?;
    let mut upper = FaultLayer::new(lower);
    log.plan(&mut upper, &[(0, 2, 0), (0, 3, 2), (2, 1, 0)])?;
    log.drive(&mut single(upper), &DOUBLE)
}

// Lets so many units of time pass.
fn wait<M: Member>(member: &mut M, ticks: usize) {
    for _ in 0..ticks {
        member.tick();
    }
}

// The last round, which every later tick stays in.
fn show_last_round(log: &mut Log) -> Result<(), AllocError> {
    log.push_heading(
        "the count of ticks stops at 65535: an entry of that round, before it and from then on",
    )?;
    let mut bank = single(FaultLayer::new(Cell::new()));
    log.plan(&mut bank.first, &[(65_535, 2, 0), (65_536, 1, 0)])?;
    wait(&mut bank.first, 65_534);
    log.drive(
        &mut bank,
        &[
            Step::On(0, Call::Look(0)),
            Step::On(0, Call::Tick),
            Step::On(0, Call::Look(0)),
            Step::On(0, Call::Tick),
            Step::On(0, Call::Look(0)),
        ],
    )?;
    log.plan(&mut bank.first, &[(65_535, 2, 1)])?;
    log.drive(
        &mut bank,
        &[Step::On(0, Call::Look(1)), Step::On(0, Call::Look(2))],
    )
}

// Appends the lines of all fault layers.
pub(crate) fn show(log: &mut Log) -> Result<(), AllocError> {
    show_single(log)?;
    show_double(log)?;
    show_last_round(log)
}
