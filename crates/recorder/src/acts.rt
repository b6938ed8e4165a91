// One operation of a script on a volume, and the two numbers that its line gives of its answer.
ghost use Rattle.std.specs.Prelude.{◌≡◌};
ghost use Rattle.script.specs.Acts.{act_of};
ghost use Rattle.recorder.specs.declared.acts.ActRefusal.TheVariants.{Refused};
ghost use Rattle.recorder.specs.Lines.{union_of};
ghost use Rattle.recorder.specs.Acts.{StepsOn, told_line, told_stop};
ghost use Rattle.recorder.specs.Doing.{DidAct};

use code::BLOCK;
use contents::{Loss, Refusal};
use runs::any_volume::AnyVolume;
use script::parts::{Act, Operation};
use volume::volume::rebuilds::Order;

// The number of an operation that is not known.
const UNKNOWN: u8 = 10;

// Why an operation has no value.
#[derive(Clone, Copy, PartialEq, Eq, Debug)]
pub(crate) enum ActRefusal {
    // a call was refused
    Refused(Refusal),
    // it is not known, and no call was made
    Unknown,
}

impl From<Refusal> for ActRefusal {
    ghost from_gives = { λ x y. y ≡ Refused x };

    fn from(refusal: Refusal) -> ActRefusal {
        ActRefusal::Refused(refusal)
    }
}

// The slots that are lost, whatever the cause.
fn union(loss: Loss) -> usize
    ensures value { result ≡ union_of loss.gone loss.behind loss.unreadable }
{
    loss.gone as usize | loss.behind as usize | loss.unreadable as usize
}

// The refusal and the value of a line, which prints numbers: 0 and what was answered; or the refusal's number, and the slots that it names.
pub(crate) fn numbers(answer: Result<usize, ActRefusal>) -> (u8, usize)
    ensures value { result ≡ told_line answer }
{
    match answer {
        Ok(value) => (0, value),
        Err(ActRefusal::Unknown) => (UNKNOWN, 0),
        Err(ActRefusal::Refused(refusal)) => match refusal {
            Refusal::Lost(loss) | Refusal::Torn(loss) => (refusal.number(), union(loss)),
            _ => (refusal.number(), 0),
        },
    }
}

// A read: its value is the first byte.
fn read<V: AnyVolume>(volume: &mut V, block: usize) -> Result<usize, ActRefusal>
    ensures did { DidAct V.AnyVolume volume.old (Act.Read block) result volume.new }
{
    let mut buffer = [0u8; BLOCK];
    volume.read(block, &mut buffer)?;
    Ok(usize::from(buffer[0]))
}

// A write of a block filled with a byte: its value is the number of columns missing after it.
fn write<V: AnyVolume>(volume: &mut V, block: usize, byte: u8) -> Result<usize, ActRefusal>
    ensures did { DidAct V.AnyVolume volume.old (Act.Write block byte) result volume.new }
{
    Ok(volume.write(block, &[byte; BLOCK])?)
}

// Steps by an order until no stripe is left, a step is refused, or so many are made.
fn steps<V: AnyVolume>(volume: &mut V, order: &Order, most: usize) -> Result<(), Refusal>
    ensures same { V.shape volume.new ≡ V.shape volume.old }
    ensures steps { StepsOn (V.shape volume.old) (V.state volume.old) order.now.slot most (told_stop result) (V.state volume.new) }
{
    let stripes = volume.stripes();
    for _made in 0..most {
        let frontier = volume.step(order)?;
        if frontier >= stripes {
            return Ok(());
        }
    }
    Ok(())
}

// A rebuild of a slot by at most so many steps: its value is the frontier that it came to.
fn rebuild<V: AnyVolume>(volume: &mut V, slot: usize, most: usize) -> Result<usize, ActRefusal>
    ensures did { DidAct V.AnyVolume volume.old (Act.Rebuild slot most) result volume.new }
{
    let order = volume.open(slot)?;
    let stepped = steps(volume, &order, most);
    let closed = volume.close(order);
    stepped?;
    Ok(closed?)
}

// What an operation answers.
pub(crate) fn act<V: AnyVolume>(volume: &mut V, operation: Operation) -> Result<usize, ActRefusal>
    ensures did { DidAct V.AnyVolume volume.old (act_of operation) result volume.new }
{
    // An act is data of a script, made from its bytes: so one switch here, and no closures in its place.
    match Act::from(operation) {
        Act::Tick => {
            volume.tick();
            Ok(0)
        }
        Act::Read(block) => read(volume, block),
        Act::Write(block, byte) => write(volume, block, byte),
        Act::Scrub(stripe) => {
            let (mended, _, _) = volume.scrub(stripe)?;
            Ok(mended)
        }
        Act::Replace(slot) => {
            volume.replace(slot)?;
            Ok(0)
        }
        Act::Rebuild(slot, most) => rebuild(volume, slot, most),
        Act::Unknown => Err(ActRefusal::Unknown),
    }
}
