// Numbers, addresses and bytes as text: decimal without leading zeros, and lower hex. Each is written at the front of lent bytes, and
// read from the whole of lent bytes.
#![tactic(auto)]

ghost use Rattle.std.specs.Prelude.{◌≡◌, ◌+◌, ◌-◌, ◌*◌, ◌/◌, ◌<◌, ◌≤◌, leb, ltb, length};
ghost use Rattle.address.specs.declared.Address.TheVariants.{V6};
ghost use Rattle.wire.specs.Inner.{Wrote, WroteAt};
ghost use Rattle.text.specs.Text.{digit, digits_of, decimal, hex_word, address_text, hex_bytes};
ghost use Rattle.text.specs.Text.{digit_value, number_from, decimal_of, hex_word_of, is_hex};
ghost use Rattle.text.specs.Inner.{ReadHex};

use address::Address;

pub mod scan;

// ---- Written

pub(crate) fn digit(d: u64) -> u8
    requires { d < 16 }
    ensures { result ≡ digit d }
{
    if d < 10 {
        (48 + d) as u8
    } else {
        (87 + d) as u8
    }
}

// The lowest digits of n, from the last to the first.
fn put_digits(out: &mut [u8], n: u64, base: u64, width: usize)
    requires { (0 < base) × ((base ≤ 16) × (width ≤ length out.old)) }
    ensures { Wrote (digits_of base width n) out.old out.new }
{
    let mut left = n;
    // By place: the digits fill the front of out from the last to the first, and the rest stays.
    for i in (0..width).rev() {
        out[i] = digit(left % base);
        left /= base;
    }
}

pub fn decimal_size(n: u64) -> usize
    ensures { (result ≡ length (decimal n)) × (result ≤ 20) }
{
    if n == 0 {
        return 1;
    }
    n.ilog10() as usize + 1
}

// How long the number is.
pub fn put_decimal(out: &mut [u8], n: u64) -> usize
    requires { length (decimal n) ≤ length out.old }
    ensures { (result ≡ length (decimal n)) × Wrote (decimal n) out.old out.new }
{
    let size = decimal_size(n);
    put_digits(out, n, 10, size);
    size
}

pub(crate) fn put_hex_word(out: &mut [u8], n: u32)
    requires { 8 ≤ length out.old }
    ensures { Wrote (hex_word n) out.old out.new }
{
    put_digits(out, n as u64, 16, 8);
}

// At a place of the buffer, for words one after another.
fn put_hex_word_at(out: &mut [u8], at: usize, n: u32)
    requires { at + 8 ≤ length out.old }
    ensures { WroteAt at (hex_word n) out.old out.new }
{
    put_hex_word(&mut out[at..], n);
}

fn put_v6(out: &mut [u8], a: u32, b: u32, c: u32, d: u32)
    requires { 32 ≤ length out.old }
    ensures { Wrote (address_text (V6 a b c d)) out.old out.new }
{
    put_hex_word(out, a);
    put_hex_word_at(out, 8, b);
    put_hex_word_at(out, 16, c);
    put_hex_word_at(out, 24, d);
}

// Digits here, and bytes in `messages`: two tables of two numbers.
pub fn address_size(address: Address) -> usize
    ensures { (result ≡ length (address_text address)) × (result ≤ 32) }
{
    match address {
        Address::V4(_) => 8,
        Address::V6(_, _, _, _) => 32,
    }
}

// How long the address is.
pub fn put_address(out: &mut [u8], address: Address) -> usize
    requires { length (address_text address) ≤ length out.old }
    ensures { (result ≡ length (address_text address)) × Wrote (address_text address) out.old out.new }
{
    match address {
        Address::V4(a) => {
            put_hex_word(out, a);
            8
        }
        Address::V6(a, b, c, d) => {
            put_v6(out, a, b, c, d);
            32
        }
    }
}

// All of v.
pub fn put_hex_bytes(out: &mut [u8], v: &[u8])
    requires { 2 * length v.now ≤ length out.old }
    ensures { Wrote (hex_bytes v.now) out.old out.new }
{
    for (i, b) in v.iter().enumerate() {
        put_digits(&mut out[2 * i..], u64::from(*b), 16, 2);
    }
}

// ---- Read

// The value of a character as a digit, or 16 where it is none.
pub(crate) fn digit_value(c: u8) -> u64
    ensures { (result ≡ digit_value c) × (result ≤ 16) }
{
    match c {
        48..=57 => u64::from(c - 48),
        97..=102 => u64::from(c - 87),
        _ => 16,
    }
}

fn is_digit(c: u8) -> bool
    ensures { result ≡ ltb (digit_value c) 16 }
{
    if c < 58 {
        48 <= c
    } else {
        (97 <= c) & (c <= 102)
    }
}

// The number whose digits in the base are s, if each character is such a digit and the number stays below 2^64.
fn number(s: &[u8], base: u64) -> Option<u64>
    requires { (0 < base) × (base ≤ 16) }
    ensures { result ≡ number_from base 0 s.now }
{
    let mut n: u64 = 0;
    for c in s {
        let d = digit_value(*c);
        if base <= d {
            return None;
        }
        n = n.checked_mul(base)?.checked_add(d)?;
    }
    Some(n)
}

// The number whose decimal text is s.
pub fn read_decimal(s: &[u8]) -> Option<u64>
    ensures { result ≡ decimal_of s.now }
{
    let n = number(s, 10)?;
    if decimal_size(n) == s.len() {
        Some(n)
    } else {
        None
    }
}

// The word whose hex text is s: eight digits.
pub fn read_hex_word(s: &[u8]) -> Option<u64>
    ensures { result ≡ hex_word_of s.now }
{
    if s.len() != 8 {
        return None;
    }
    number(s, 16)
}

// Every character is looked at: without an early return several are tested at once.
pub fn is_hex(s: &[u8]) -> bool
    ensures { result ≡ is_hex s.now }
{
    let mut good = s.len() % 2 == 0;
    for c in s {
        good &= is_digit(*c);
    }
    good
}

// The value of a character that is a digit: the letters stand in the second half of the 128.
fn value_of_digit(c: u8) -> u8
    requires { digit_value c < 16 }
    ensures { (result ≡ digit_value c) × (result < 16) }
{
    c % 16 + 9 * (c / 64)
}

// The bytes whose hex text is s, put at the front of out; how many they are. Where the text is not hex, nothing is written.
pub fn read_hex_bytes(s: &[u8], out: &mut [u8]) -> Option<usize>
    requires { length s.now ≤ 2 * length out.old }
    ensures { ReadHex s.now out.old out.new result }
{
    if !is_hex(s) {
        return None;
    }
    let n = s.len() / 2;
    // By place: each byte of out is of two places of s.
    for k in 0..n {
        let high = value_of_digit(s[2 * k]);
        let low = value_of_digit(s[2 * k + 1]);
        out[k] = high * 16 + low;
    }
    Some(n)
}
