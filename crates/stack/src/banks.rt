// Banks of several kinds of members, and the buffers that they hand back.
use crate::builds::{Stack, single, stack};
use crate::calls::{Call, Log, Step};
use bank::chain::Link;
use bank::empty::NoMembers;
use faulty::FaultLayer;
use member::cell::Cell;
use member::image::Image;
use remap::Remap;
use shelf::Shelf;
use std::alloc::AllocError;

// A stack over a cell, a stack over an image, and a shelf.
type Mixed = Link<Stack<Cell>, Link<Stack<Image>, Shelf>>;

// The calls on the bank of all kinds.
const MIXED: [Step; 51] = [
    Step::On(0, Call::Count),
    Step::On(1, Call::Count),
    Step::On(2, Call::Count),
    Step::On(3, Call::Count),
    Step::On(4, Call::Count),
    Step::On(5, Call::Count),
    Step::Why("each call touches the member in its slot alone"),
    Step::On(0, Call::Write(0, 512, 41)),
    Step::On(0, Call::Read(0, 512)),
    Step::On(1, Call::Read(0, 512)),
    Step::On(1, Call::Write(0, 512, 42)),
    Step::On(1, Call::Write(1, 512, 43)),
    Step::On(0, Call::Read(0, 512)),
    Step::On(0, Call::Read(1, 512)),
    Step::On(1, Call::Read(0, 512)),
    Step::On(1, Call::Read(1, 512)),
    Step::On(1, Call::Read(2, 512)),
    Step::On(3, Call::Write(1, 512, 44)),
    Step::On(2, Call::Read(1, 512)),
    Step::On(3, Call::Read(0, 512)),
    Step::On(3, Call::Read(1, 512)),
    Step::On(4, Call::Read(0, 512)),
    Step::On(4, Call::Write(0, 511, 45)),
    Step::On(4, Call::Write(2, 512, 45)),
    Step::On(4, Call::Look(1)),
    Step::On(2, Call::Look(2)),
    Step::Why("a slot beyond the list: 6 at height 0 with the block asked, 0 where none is"),
    Step::On(5, Call::Look(3)),
    Step::On(5, Call::Read(3, 512)),
    Step::On(5, Call::Read(3, 511)),
    Step::On(5, Call::Write(4, 512, 46)),
    Step::On(5, Call::Tick),
    Step::On(5, Call::Fresh),
    Step::On(1000, Call::Read(9, 512)),
    Step::Why(
        "a tick of slot 1: gone in round 1, and the moved block's fault carries the number of its spare",
    ),
    Step::On(1, Call::Tick),
    Step::On(1, Call::Read(0, 512)),
    Step::On(1, Call::Read(1, 512)),
    Step::On(0, Call::Read(0, 512)),
    Step::On(2, Call::Tick),
    Step::On(2, Call::Read(0, 512)),
    Step::Why(
        "fresh: an image keeps its bytes and has its blocks at their own numbers again, a shelf keeps its bytes, a cell is zeros",
    ),
    Step::On(1, Call::Fresh),
    Step::On(1, Call::Read(0, 512)),
    Step::On(1, Call::Read(1, 512)),
    Step::On(0, Call::Read(0, 512)),
    Step::On(3, Call::Fresh),
    Step::On(3, Call::Read(1, 512)),
    Step::On(0, Call::Fresh),
    Step::On(0, Call::Read(0, 512)),
    Step::On(1, Call::Read(0, 512)),
];

// Remap layers that are asked for more spares than there can be.
fn show_many_spares(log: &mut Log) -> Result<(), AllocError> {
    log.push_heading(
        "100 spares count as 16: no block is left of a cell, and 4 of an image of 20 blocks",
    )?;
    let image = Image::new(log.bytes(38, 10_240)?);
    let mut bank = Link::new(Remap::new(Cell::new(), 100), single(Remap::new(image, 100)));
    log.push_len(&bank)?;
    log.drive(
        &mut bank,
        &[
            Step::On(0, Call::Count),
            Step::On(0, Call::Read(0, 512)),
            Step::On(0, Call::Read(0, 511)),
            Step::On(1, Call::Count),
            Step::On(1, Call::Read(3, 512)),
            Step::On(1, Call::Write(4, 512, 39)),
        ],
    )
}

// The bank of all kinds, with entries in both stacks.
fn mixed(log: &mut Log) -> Result<Mixed, AllocError> {
    log.push_heading(
        "a bank of a stack over a cell, a stack over an image of 4 blocks and 100 bytes, and a shelf of 3 images in 3700 bytes",
    )?;
    let mut on_cell = FaultLayer::new(Cell::new());
    log.plan(&mut on_cell, &[(0, 3, 0)])?;
    let mut on_image = FaultLayer::new(Image::new(log.bytes(40, 2148)?));
    log.plan(&mut on_image, &[(0, 3, 1), (1, 1, 0)])?;
    let images = Shelf::new(log.bytes(50, 3700)?, 3);
    Ok(Link::new(stack(on_cell), Link::new(stack(on_image), images)))
}

// The buffers of the image and of the shelf, after all calls.
fn show_buffers(log: &mut Log, bank: Mixed) -> Result<(), AllocError> {
    log.push_heading(
        "the buffers handed back, one byte of every 512: of the image, and of the shelf",
    )?;
    let Link {
        first: _,
        rest: Link {
            first: on_image,
            rest: images,
        },
    } = bank;
    let image = on_image.into_below().into_below().into_buffer();
    log.push_buffer(&image)?;
    log.push_buffer(&images.into_buffer())
}

// Banks in which no slot is there.
fn show_without_slots(log: &mut Log) -> Result<(), AllocError> {
    log.push_heading("banks without slots: a shelf of no images, and the end of a chain")?;
    let mut no_images = Shelf::new(log.bytes(0, 512)?, 0);
    log.push_len(&no_images)?;
    log.drive(&mut no_images, &[Step::On(0, Call::Look(1))])?;
    log.push_len(&NoMembers)?;
    log.drive(&mut NoMembers, &[Step::On(0, Call::Look(2))])
}

// Appends the lines of all banks.
pub(crate) fn show(log: &mut Log) -> Result<(), AllocError> {
    show_many_spares(log)?;
    let mut bank = mixed(log)?;
    log.push_len(&bank)?;
    log.drive(&mut bank, &MIXED)?;
    show_buffers(log, bank)?;
    show_without_slots(log)
}
