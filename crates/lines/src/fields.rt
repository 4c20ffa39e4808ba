// The fields of a line: parted by one tab, each read as a number or as an address. Every function is given what is left of the line, from
// the place where a field begins, and a reader gives what is left behind the field's tab beside what it read.
ghost use Rattle.std.specs.Prelude.{◌≡◌, ◌+◌, ◌≤◌, length, IfSome, option_map};
ghost use Rattle.lines.specs.Fields.{word_at};
ghost use Rattle.lines.specs.Inner.{split_field, number_field, read_address, address_field};

use address::Address;
use text::scan::find_far;
use text::{is_hex, read_decimal, read_hex_word};

const TAB: u8 = 9;

// The field, and what is left behind its tab. A field that no tab follows is the line's last, and no number or address.
fn split_field(left: &[u8]) -> Option<(&[u8], &[u8])>
    ensures { option_map (λ p. (p.0.now, p.1.now)) result ≡ split_field left.now }
{
    let end = find_far(left, TAB);
    if end < left.len() {
        Some((&left[..end], &left[end + 1..]))
    } else {
        None
    }
}

// The field as a number that is at most `most`.
pub(crate) fn number_field(left: &[u8], most: u64) -> Option<(u64, &[u8])>
    ensures value { option_map (λ p. (p.0, p.1.now)) result ≡ number_field most left.now }
    ensures fits { IfSome result (λ p. p.0 ≤ most) }
{
    let (field, rest) = split_field(left)?;
    let n = read_decimal(field)?;
    if most < n {
        return None;
    }
    Some((n, rest))
}

// The word whose eight hex digits begin at k.
fn word_at(field: &[u8], k: usize) -> u32
    requires { k + 8 ≤ length field.now }
    ensures { result ≡ word_at k field.now }
{
    read_hex_word(&field[k..k + 8]).unwrap_or(0) as u32
}

fn read_address(field: &[u8]) -> Option<Address>
    ensures { result ≡ read_address field.now }
{
    if !is_hex(field) {
        return None;
    }
    match field.len() {
        8 => Some(Address::V4(word_at(field, 0))),
        32 => Some(Address::V6(
            word_at(field, 0),
            word_at(field, 8),
            word_at(field, 16),
            word_at(field, 24),
        )),
        _ => None,
    }
}

// The field as an address.
pub(crate) fn address_field(left: &[u8]) -> Option<(Address, &[u8])>
    ensures { option_map (λ p. (p.0, p.1.now)) result ≡ address_field left.now }
{
    let (field, rest) = split_field(left)?;
    let address = read_address(field)?;
    Some((address, rest))
}
