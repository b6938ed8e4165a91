// What a look at a member tells.
ghost use Rattle.std.specs.Prelude.{◌≡◌, if◌then◌else◌};
ghost use Rattle.volume.specs.Slots.{members_in};

use bank::Bank;
use contents::Status;
use member::Cause;

// Whether the member in a slot is gone.
pub fn is_gone<B: Bank>(bank: &B, slot: usize) -> bool
    ensures value { result ≡ (members_in B.Bank bank.now slot).gone }
{
    bank.look(slot, 0)
        .is_err_and(|refusal| refusal.fault.cause == Cause::Gone)
}

// How the column of a present member stands, by whether the stripe is below the slot's frontier and its block is readable.
pub fn present_status(below: bool, readable: bool) -> Status
    ensures value { result ≡ (if below then (if readable then Status.Current else Status.Unreadable) else Status.Behind) }
{
    if !below {
        Status::Behind
    } else if readable {
        Status::Current
    } else {
        Status::Unreadable
    }
}
