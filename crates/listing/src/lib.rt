// The listing of what is live, in two passes over the lent slots: how long it is, and then its lines. The work of one slot is in the
// modules.
#![tactic(auto)]

ghost use Rattle.std.specs.Prelude.{◌≡◌, ◌++◌, ◌≤◌, length, drop};
ghost use Rattle.listing.specs.Listing.{listing, Lists};

use puts::put_slot;
use refusal::Refusal;
use sizes::slot_size;
use slot::Slot;

pub mod fields;
pub mod puts;
pub mod sizes;

// The first pass.
fn text_size(slots: &[Slot], clock: u64) -> usize
    requires { length slots.now ≡ 64 }
    ensures { (result ≡ length (listing clock slots.now)) × (result ≤ 73856) }
{
    let mut size = 0;
    for (k, slot) in slots.iter().enumerate() {
        size += slot_size(clock, k, slot);
    }
    size
}

// The second pass: each slot's lines after those of the slot before.
fn write_lines(slots: &[Slot], output: &mut [u8], clock: u64)
    requires { length (listing clock slots.now) ≤ length output.old }
    ensures { output.new ≡ listing clock slots.now ++ drop (length (listing clock slots.now)) output.old }
{
    let mut place = 0;
    for (k, slot) in slots.iter().enumerate() {
        place = put_slot(output, place, clock, k, slot);
    }
}

// The whole listing at the front of the output, where it fits: how long it is.
pub fn list(slots: &[Slot], clock: u64, output: &mut [u8]) -> Result<usize, Refusal>
    ensures { Lists clock slots.now output.old output.new result }
{
    if slots.len() != 64 {
        return Err(Refusal::NotSixtyFourSlots);
    }
    let size = text_size(slots, clock);
    if output.len() < size {
        return Err(Refusal::ShortOutput);
    }
    write_lines(slots, output, clock);
    Ok(size)
}
