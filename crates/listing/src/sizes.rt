// How long the lines of a listing are.
ghost use Rattle.std.specs.Prelude.{◌≡◌, ◌*◌, ◌<◌, ◌≤◌, length};
ghost use Rattle.listing.specs.Inner.{field_text, fields_text, entry_text, entries_text};
ghost use Rattle.listing.specs.Listing.{slot_lines};

use crate::fields::{Entry, Field};
use slot::Slot;
use text::{address_size, decimal_size};

#[tactic(auto, unfolding(crate::specs::Inner::field_text))]
fn field_size(field: Field) -> usize
    ensures { (result ≡ length (field_text field)) × (result ≤ 33) }
{
    match field {
        Field::Byte(_) => 1,
        Field::Decimal(n) => decimal_size(n) + 1,
        Field::Hex(address) => address_size(address) + 1,
    }
}

fn line_size(fields: &[Field]) -> usize
    requires { length fields.now ≤ 10 }
    ensures { result ≡ length (fields_text fields.now) }
{
    fields.iter().map(|field| field_size(*field)).sum()
}

// The size of an entry's line, or 0 where it isn't live.
fn entry_size<const N: usize, E: Entry<N>>(clock: u64, k: usize, entry: &E) -> usize
    requires few { (k < 64) × (N ≤ 10) }
    ensures { (result ≡ length (entry_text E.live E.line clock k entry.now)) × (result ≤ E.most) }
{
    if !entry.is_live(clock) {
        return 0;
    }
    line_size(&entry.fields(k))
}

fn entries_size<const N: usize, E: Entry<N>>(clock: u64, k: usize, entries: &[E]) -> usize
    requires few { (k < 64) × (N ≤ 10) }
    requires fits { (length entries.now ≤ 8) × (E.most ≤ 330) }
    ensures { (result ≡ length (entries_text E.live E.line clock k entries.now)) × (result ≤ 8 * E.most) }
{
    let mut size = 0;
    for entry in entries {
        size += entry_size(clock, k, entry);
    }
    size
}

pub(crate) fn slot_size(clock: u64, k: usize, slot: &Slot) -> usize
    requires { k < 64 }
    ensures { (result ≡ length (slot_lines clock k slot.now)) × (result ≤ 1154) }
{
    if !slot.allocation.is_live(clock) {
        return 0;
    }
    let first = line_size(&slot.allocation.fields(k));
    first + entries_size(clock, k, &slot.permissions) + entries_size(clock, k, &slot.channels)
}
