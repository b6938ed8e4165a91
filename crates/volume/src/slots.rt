// The slots' records: which is being rebuilt, and how far each is rebuilt.
ghost use Rattle.std.specs.Prelude.{◌≡◌, ◌<◌, not, replicate, nat_lt};
ghost use Rattle.contents.specs.Records.{idle_at, with_record, slot_after, slot_answer};
ghost use Rattle.contents.specs.Refusals.{outcome};
ghost use Rattle.volume.specs.Slots.{frontier_of, records_of};

use crate::size::MOST_SLOTS;
use contents::{Refusal, SlotEvent, SlotRecord, SlotState};

// The records of all slots: a fixed table, since a library takes no memory of its own.
#[derive(Drop)]
pub struct SlotTable {
    pub rows: [SlotRecord; 18],
}

impl SlotTable {
    // All slots idle, with this frontier.
    pub fn idle(frontier: usize) -> SlotTable
        ensures rows { result.rows ≡ replicate 18 (idle_at frontier) }
    {
        SlotTable {
            rows: [SlotRecord {
                state: SlotState::Idle,
                frontier,
            }; 18],
        }
    }

    // Whether a stripe is below the frontier of a slot: the one test of a frontier. A slot without a record has no stripe.
    pub fn has(&self, slot: usize, stripe: usize) -> bool
        ensures value { result ≡ nat_lt stripe (frontier_of self.now.rows slot) }
    {
        slot < MOST_SLOTS && stripe < self.rows[slot].frontier
    }

    // Whether the first `stripes` stripes are all below the frontier of a slot.
    pub fn has_all(&self, slot: usize, stripes: usize) -> bool
        ensures value { result ≡ not (nat_lt (frontier_of self.now.rows slot) stripes) }
    {
        stripes == 0 || self.has(slot, stripes - 1)
    }

    // The record of a slot meets an event, and every other record is kept.
    pub fn change(
        &mut self,
        slot: usize,
        event: SlotEvent,
        stripes: usize,
    ) -> Result<usize, Refusal>
        requires within { slot < 18 }
        ensures records { records_of self.new.rows ≡ with_record (records_of self.old.rows) slot (slot_after stripes (records_of self.old.rows slot) event) }
        ensures answered { outcome result ≡ slot_answer stripes (records_of self.old.rows slot) event }
    {
        self.rows[slot].meet(event, stripes)
    }
}
