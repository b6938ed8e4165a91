// The stack of a remap layer with 2 spares over a fault layer over a cell, from round 0 to round 4.
use crate::builds::{single, stack};
use crate::calls::{Call, Log, Step};
use faulty::FaultLayer;
use member::cell::Cell;
use std::alloc::AllocError;

// Entries of round, kind and block, one more than there are places.
const ENTRIES: [(usize, usize, usize); 17] = [
    (0, 2, 1),
    (0, 3, 2),
    (0, 3, 6),
    (0, 9, 3),
    (1, 2, 4),
    (1, 3, 5),
    (1, 3, 7),
    (2, 1, 0),
    (3, 2, 0),
    (3, 3, 1),
    (4, 2, 6),
    (0, 0, 0),
    (0, 4, 0),
    (0, 2, 8),
    (0, 3, 100),
    (65_536, 1, 0),
    (0, 1, 0),
];

// The calls, from round to round.
const STEPS: [Step; 79] = [
    Step::Why(
        "of the cell's 8 blocks 6 are left; the layer at the top refuses a bad buffer and then a block that is not there, at height 2",
    ),
    Step::On(0, Call::Count),
    Step::On(0, Call::Look(0)),
    Step::On(0, Call::Read(0, 512)),
    Step::On(0, Call::Write(0, 512, 17)),
    Step::On(0, Call::Read(0, 512)),
    Step::On(0, Call::Read(0, 511)),
    Step::On(0, Call::Read(9, 513)),
    Step::On(0, Call::Read(6, 0)),
    Step::On(0, Call::Read(6, 512)),
    Step::On(0, Call::Look(6)),
    Step::On(0, Call::Look(usize::MAX)),
    Step::On(0, Call::Write(0, 511, 18)),
    Step::On(0, Call::Write(7, 0, 18)),
    Step::On(0, Call::Write(6, 512, 18)),
    Step::On(0, Call::Read(0, 512)),
    Step::Why(
        "block 1 is unreadable at the fault layer, height 1, until a write is accepted there",
    ),
    Step::On(0, Call::Look(1)),
    Step::On(0, Call::Read(1, 512)),
    Step::On(0, Call::Write(1, 512, 20)),
    Step::On(0, Call::Look(1)),
    Step::On(0, Call::Read(1, 512)),
    Step::Why("an entry of an unknown kind does nothing"),
    Step::On(0, Call::Write(3, 512, 19)),
    Step::On(0, Call::Read(3, 512)),
    Step::Why(
        "block 2 refuses a write and moves to spare 6, which refuses it too, and then to spare 7",
    ),
    Step::On(0, Call::Read(2, 512)),
    Step::On(0, Call::Write(2, 512, 21)),
    Step::On(0, Call::Look(2)),
    Step::On(0, Call::Read(2, 512)),
    Step::Why(
        "round 1: block 4 unreadable; block 5 and spare 7 unwritable, and no spare is left: 3 at height 2 with the block as asked",
    ),
    Step::On(0, Call::Tick),
    Step::On(0, Call::Read(4, 512)),
    Step::On(0, Call::Write(4, 512, 24)),
    Step::On(0, Call::Read(4, 512)),
    Step::On(0, Call::Read(5, 512)),
    Step::On(0, Call::Write(5, 512, 22)),
    Step::On(0, Call::Read(5, 512)),
    Step::On(0, Call::Write(5, 512, 22)),
    Step::On(0, Call::Read(2, 512)),
    Step::On(0, Call::Write(2, 512, 23)),
    Step::Why(
        "a write refused with 3 leaves its block unreadable, and the fault of a moved block carries the number of its spare",
    ),
    Step::On(0, Call::Read(2, 512)),
    Step::On(0, Call::Look(2)),
    Step::On(0, Call::Read(0, 512)),
    Step::On(0, Call::Read(1, 512)),
    Step::On(0, Call::Read(3, 512)),
    Step::Why(
        "round 2: gone, which comes after a bad buffer and a block that is not there, and before all else",
    ),
    Step::On(0, Call::Tick),
    Step::On(0, Call::Count),
    Step::On(0, Call::Look(0)),
    Step::On(0, Call::Read(0, 512)),
    Step::On(0, Call::Read(2, 512)),
    Step::On(0, Call::Write(5, 512, 25)),
    Step::On(0, Call::Read(5, 511)),
    Step::On(0, Call::Write(6, 512, 25)),
    Step::Why("fresh: present, zeros, no block moved, no entry active"),
    Step::On(0, Call::Fresh),
    Step::On(0, Call::Read(0, 512)),
    Step::On(0, Call::Read(1, 512)),
    Step::On(0, Call::Read(2, 512)),
    Step::On(0, Call::Read(5, 512)),
    Step::On(0, Call::Write(2, 512, 26)),
    Step::On(0, Call::Read(2, 512)),
    Step::On(0, Call::Write(5, 512, 27)),
    Step::On(0, Call::Read(5, 512)),
    Step::Why("round 3: block 0 unreadable; block 1 unwritable, so that it moves to spare 6"),
    Step::On(0, Call::Tick),
    Step::On(0, Call::Read(0, 512)),
    Step::On(0, Call::Write(0, 512, 28)),
    Step::On(0, Call::Read(0, 512)),
    Step::On(0, Call::Write(1, 512, 29)),
    Step::On(0, Call::Read(1, 512)),
    Step::Why("round 4: spare 6 unreadable until a write is accepted there"),
    Step::On(0, Call::Tick),
    Step::On(0, Call::Read(1, 512)),
    Step::On(0, Call::Write(1, 512, 30)),
    Step::On(0, Call::Read(1, 512)),
    Step::On(0, Call::Read(2, 512)),
];

// Appends the lines of all rounds.
pub(crate) fn show(log: &mut Log) -> Result<(), AllocError> {
    log.push_heading(
        "remap with 2 spares over a fault layer over a cell: sixteen entries of round, kind and block, and one too many",
    )?;
    let mut layer = FaultLayer::new(Cell::new());
    log.plan(&mut layer, &ENTRIES)?;
    let mut bank = single(stack(layer));
    log.drive(&mut bank, &STEPS)
}
