// A line of the text: a prefix, or none where the line is bad.
ghost use Rattle.std.specs.Prelude.{◌≡◌, ◌^◌, ◌≤◌};
ghost use Rattle.denied.specs.Prefixes.{is_prefix, line_of};
ghost use Rattle.denied.specs.Inner.{LineFits};

use text::{read_decimal, read_hex_word};

const TAB: u8 = 9;

// The first `length` bits of the address.
#[derive(Clone, Copy)]
pub struct Prefix {
    pub address: u32,
    pub length: u32,
}

// 2^n.
fn power(n: u32) -> u64
    requires { n ≤ 32 }
    ensures { result ≡ 2 ^ n }
{
    1 << (n as u64)
}

// Whether the bits after the length are zero.
fn is_prefix(address: u64, length: u64) -> bool
    ensures { result ≡ is_prefix address length }
{
    if 32 < length {
        return false;
    }
    address % power((32 - length) as u32) == 0
}

pub(crate) fn line_of(line: &[u8]) -> Option<Prefix>
    ensures { (result ≡ line_of line.now) × LineFits result }
{
    if line.len() < 9 {
        return None;
    }
    if line[8] != TAB {
        return None;
    }
    let address = read_hex_word(&line[..8])?;
    let length = read_decimal(&line[9..])?;
    if !is_prefix(address, length) {
        return None;
    }
    Some(Prefix {
        address: address as u32,
        length: length as u32,
    })
}
