// The fields of a line, which tabs part. A field that isn't there is an empty one.
ghost use Rattle.std.specs.Prelude.{◌≤◌, length};

use address::{Address, TransactionId, TransportAddress};
use text::scan::find;
use text::{read_decimal, read_hex_bytes, read_hex_word};

pub const TAB: u8 = 9;

pub const NEWLINE: u8 = 10;

// The first place from there on with that byte, or the end.
pub(crate) fn stop(text: &[u8], from: usize, mark: u8) -> usize
    requires { from ≤ length text.now }
    ensures { (from ≤ result) × (result ≤ length text.now) }
{
    from + find(&text[from..], mark)
}

// The place after the next tab, or the end.
fn next_field(line: &[u8], from: usize) -> usize
    requires { from ≤ length line.now }
    ensures { result ≤ length line.now }
{
    let end = stop(line, from, TAB);
    if end < line.len() {
        return end + 1;
    }
    end
}

// Where the field with that number starts; the letter of the line is field 0.
pub(crate) fn field_start(line: &[u8], k: usize) -> usize
    ensures { result ≤ length line.now }
{
    let mut from: usize = 0;
    for _ in 0..k {
        from = next_field(line, from);
    }
    from
}

// The letter that a line begins with.
pub(crate) fn letter(line: &[u8]) -> u8 {
    if line.len() == 0 {
        return 0;
    }
    line[0]
}

pub(crate) fn number(line: &[u8], k: usize) -> u64 {
    let from = field_start(line, k);
    let to = stop(line, from, TAB);
    read_decimal(&line[from..to]).unwrap_or(0)
}

// One line each: `as` takes no number that does not fit, and the remainder is by the size of the type.
pub(crate) fn number_u32(line: &[u8], k: usize) -> u32 {
    (number(line, k) % 4294967296) as u32
}

pub(crate) fn number_u16(line: &[u8], k: usize) -> u16 {
    (number(line, k) % 65536) as u16
}

pub(crate) fn number_u8(line: &[u8], k: usize) -> u8 {
    (number(line, k) % 256) as u8
}

fn word(line: &[u8], from: usize) -> u32
    requires { from ≤ length line.now }
{
    if line.len() - from < 8 {
        return 0;
    }
    let word = read_hex_word(&line[from..from + 8]).unwrap_or(0);
    (word % 4294967296) as u32
}

// An address of 8 or 32 hex digits.
pub(crate) fn address(line: &[u8], k: usize) -> Address {
    let from = field_start(line, k);
    let to = stop(line, from, TAB);
    if to - from < 32 {
        return Address::V4(word(line, from));
    }
    Address::V6(
        word(line, from),
        word(line, from + 8),
        word(line, from + 16),
        word(line, from + 24),
    )
}

// A transaction id of 24 hex digits; three zeros where there are fewer.
pub(crate) fn transaction_id(line: &[u8], k: usize) -> TransactionId {
    let from = field_start(line, k);
    let to = stop(line, from, TAB);
    if to - from < 24 {
        return TransactionId {
            high: 0,
            middle: 0,
            low: 0,
        };
    }
    TransactionId {
        high: word(line, from),
        middle: word(line, from + 8),
        low: word(line, from + 16),
    }
}

// The address in one field and the port in another.
pub(crate) fn peer(line: &[u8], address_field: usize, port_field: usize) -> TransportAddress {
    let address = address(line, address_field);
    let port = number_u16(line, port_field);
    TransportAddress { address, port }
}

// The bytes of a field in hex, put at the front; how many they are.
pub(crate) fn bytes(line: &[u8], k: usize, out: &mut [u8]) -> usize {
    let from = field_start(line, k);
    let to = stop(line, from, TAB);
    if out.len() < (to - from) / 2 + 1 {
        return 0;
    }
    read_hex_bytes(&line[from..to], out);
    (to - from) / 2
}
