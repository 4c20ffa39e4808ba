// The table's slots, lent as a slice: one is lent on or written, and all are looked over, the allocations alone. What a look learns of one
// slot is by value, in the modules.
#![tactic(auto)]

ghost use Rattle.std.specs.Prelude.{◌≡◌, ◌<◌, length, set};
ghost use Rattle.table.specs.Table.{slot_at};
ghost use Rattle.table.specs.Inner.{searched, Surveyed, Looked};

use keys::{Key, Wanted, matches};
use slot::Slot;
use surveys::{Survey, first_survey, only_own, surveyed_with};

pub mod keys;
pub mod surveys;

// The slot at a place, lent where it lies.
pub fn slot_at(slots: &[Slot], k: usize) -> &Slot
    requires { k < length slots.now }
    ensures { result.now ≡ slot_at slots.now k }
{
    &slots[k]
}

pub fn put_slot(slots: &mut [Slot], k: usize, slot: Slot)
    requires { k < length slots.old }
    ensures { slots.new ≡ set slots.old k slot }
{
    slots[k] = slot;
}

// The lowest slot that is live and has the key. Of each slot the allocation alone is read.
pub(crate) fn search(slots: &[Slot], time: u64, key: Key) -> Option<usize>
    ensures { result ≡ searched time key slots.now }
{
    slots
        .iter()
        .position(|slot| matches(time, key, slot.allocation))
}

// What an Allocate of that user asks of the slots, in one pass over them. Of each slot the allocation alone is read.
fn survey(slots: &[Slot], wanted: Wanted, user: u8) -> Survey
    ensures { Surveyed slots.now wanted user result }
{
    let mut survey = first_survey();
    for (i, slot) in slots.iter().enumerate() {
        survey = surveyed_with(survey, i, wanted, user, slot.allocation);
    }
    survey
}

// One look over the slots: up to the slot of the key, or over all of them where room is wanted.
pub fn look(slots: &[Slot], wanted: Wanted) -> Survey
    ensures { Looked slots.now wanted result }
{
    match wanted.room_for {
        Some(user) => survey(slots, wanted, user),
        None => only_own(search(slots, wanted.time, wanted.key)),
    }
}
