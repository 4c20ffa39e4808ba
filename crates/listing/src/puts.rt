// The lines of a listing, each put at a place of the output; the place after it is answered.
ghost use Rattle.std.specs.Prelude.{[], ◌∷◌, ◌+◌, ◌≤◌, length};
ghost use Rattle.text.specs.Text.{decimal, address_text};
ghost use Rattle.listing.specs.Inner.{Put};
ghost use Rattle.listing.specs.Inner.{field_text, fields_text, entry_text, entries_text};
ghost use Rattle.listing.specs.Listing.{slot_lines};

use crate::fields::{Entry, Field};
use address::Address;
use slot::Slot;
use text::put_decimal;

fn put_byte(output: &mut [u8], place: usize, b: u8) -> usize
    requires { place + length (b ∷ []) ≤ length output.old }
    ensures { Put (b ∷ []) place output.old output.new result }
{
    output[place] = b;
    place + 1
}

fn put_number(output: &mut [u8], place: usize, n: u64) -> usize
    requires { place + length (decimal n) ≤ length output.old }
    ensures { Put (decimal n) place output.old output.new result }
{
    place + put_decimal(&mut output[place..], n)
}

fn put_address(output: &mut [u8], place: usize, address: Address) -> usize
    requires { place + length (address_text address) ≤ length output.old }
    ensures { Put (address_text address) place output.old output.new result }
{
    place + text::put_address(&mut output[place..], address)
}

#[tactic(auto, using(crate::proofs::Laws::put_then), unfolding(crate::specs::Inner::field_text))]
fn put_field(output: &mut [u8], place: usize, field: Field) -> usize
    requires { place + length (field_text field) ≤ length output.old }
    ensures { Put (field_text field) place output.old output.new result }
{
    match field {
        Field::Byte(b) => put_byte(output, place, b),
        Field::Decimal(n) => {
            let next = put_byte(output, place, b'\t');
            put_number(output, next, n)
        }
        Field::Hex(address) => {
            let next = put_byte(output, place, b'\t');
            put_address(output, next, address)
        }
    }
}

fn put_line(output: &mut [u8], place: usize, fields: &[Field]) -> usize
    requires { place + length (fields_text fields.now) ≤ length output.old }
    ensures { Put (fields_text fields.now) place output.old output.new result }
{
    let mut next = place;
    for field in fields {
        next = put_field(output, next, *field);
    }
    next
}

// The line of an entry, or none where it isn't live.
fn put_entry<const N: usize, E: Entry<N>>(
    output: &mut [u8],
    place: usize,
    clock: u64,
    k: usize,
    entry: &E,
) -> usize
    requires few { N ≤ 10 }
    requires fits { place + length (entry_text E.live E.line clock k entry.now) ≤ length output.old }
    ensures { Put (entry_text E.live E.line clock k entry.now) place output.old output.new result }
{
    if !entry.is_live(clock) {
        return place;
    }
    put_line(output, place, &entry.fields(k))
}

fn put_entries<const N: usize, E: Entry<N>>(
    output: &mut [u8],
    place: usize,
    clock: u64,
    k: usize,
    entries: &[E],
) -> usize
    requires few { N ≤ 10 }
    requires fits { place + length (entries_text E.live E.line clock k entries.now) ≤ length output.old }
    ensures { Put (entries_text E.live E.line clock k entries.now) place output.old output.new result }
{
    let mut next = place;
    for entry in entries {
        next = put_entry(output, next, clock, k, entry);
    }
    next
}

pub(crate) fn put_slot(output: &mut [u8], place: usize, clock: u64, k: usize, slot: &Slot) -> usize
    requires { place + length (slot_lines clock k slot.now) ≤ length output.old }
    ensures { Put (slot_lines clock k slot.now) place output.old output.new result }
{
    if !slot.allocation.is_live(clock) {
        return place;
    }
    let second = put_line(output, place, &slot.allocation.fields(k));
    let third = put_entries(output, second, clock, k, &slot.permissions);
    put_entries(output, third, clock, k, &slot.channels)
}
