// Numbers in network order, read at any place of lent bytes and written at their front; a run of bytes copied; zeros.
// Each writer gets the part of a buffer that starts after what is written already, and leaves the bytes behind its own as they were.
#![tactic(auto)]

ghost use Rattle.std.specs.Prelude.{◌≡◌, ℕ, ◌+◌, ◌^◌, ◌<◌, ◌≤◌, length, replicate};
ghost use Rattle.std.proofs.Common.{arith};
ghost use Rattle.wire.specs.Wire.{num, bytes_of, part_of};
ghost use Rattle.wire.specs.Inner.{Wrote, WroteAt};

// ---- Numbers

// An unsigned number in network order, by its width.
pub trait Number: Copy {
    // How many bytes it has.
    ghost width: { ℕ };

    ghost value: { Self → ℕ };

    // The number that stands at a place.
    fn at(s: &[u8], at: usize) -> Self
        requires { at + width ≤ length s.now }
        ensures { value result ≡ num s.now at width };

    // Written at the front.
    fn put(self, out: &mut [u8])
        requires { width ≤ length out.old }
        ensures { Wrote (bytes_of width (value self)) out.old out.new };

    // The value as a number of four bytes.
    fn wide(self) -> u32
        ensures { (result ≡ value self) × (result < 256 ^ width) };

    // At most four bytes.
    ghost narrow: { width ≤ 4 };

    // A value is of one number alone.
    ghost distinct: { (a b : Self) → value a ≡ value b → a ≡ b };
}

impl Number for u8 {
    ghost width = { 1 };

    ghost value = { λ n. n };

    fn at(s: &[u8], at: usize) -> u8 {
        s[at]
    }

    fn put(self, out: &mut [u8]) {
        out[0] = self;
    }

    fn wide(self) -> u32 {
        u32::from(self)
    }

    ghost narrow = { omega arith };

    ghost distinct = { λ a b same. same };
}

impl Number for u16 {
    ghost width = { 2 };

    ghost value = { λ n. n };

    fn at(s: &[u8], at: usize) -> u16 {
        u16::from_be_bytes([s[at], s[at + 1]])
    }

    fn put(self, out: &mut [u8]) {
        out[..2].copy_from_slice(&self.to_be_bytes());
    }

    fn wide(self) -> u32 {
        self as u32
    }

    ghost narrow = { omega arith };

    ghost distinct = { λ a b same. same };
}

impl Number for u32 {
    ghost width = { 4 };

    ghost value = { λ n. n };

    fn at(s: &[u8], at: usize) -> u32 {
        u32::from_be_bytes([s[at], s[at + 1], s[at + 2], s[at + 3]])
    }

    fn put(self, out: &mut [u8]) {
        out[..4].copy_from_slice(&self.to_be_bytes());
    }

    fn wide(self) -> u32 {
        self
    }

    ghost narrow = { omega arith };

    ghost distinct = { λ a b same. same };
}

// At a place of the buffer, for numbers one after another within one value.
pub fn put_at<N: Number>(out: &mut [u8], at: usize, n: N)
    requires { at + N.width ≤ length out.old }
    ensures { WroteAt at (bytes_of N.width (N.value n)) out.old out.new }
{
    n.put(&mut out[at..]);
}

// ---- Bytes

// The len bytes from start on, shown and not copied; the empty part where they lie outside. Numbers, for they may lie outside: `part_of`.
pub fn part(s: &[u8], start: usize, len: usize) -> &[u8]
    ensures { result.now ≡ part_of s.now start len }
{
    match s.get(start..) {
        Some(rest) if len <= rest.len() => &rest[..len],
        _ => &[],
    }
}

// All of v.
pub fn put_bytes(out: &mut [u8], v: &[u8])
    requires { length v.now ≤ length out.old }
    ensures { Wrote v.now out.old out.new }
{
    out[..v.len()].copy_from_slice(v);
}

// n zeros.
pub fn put_zeros(out: &mut [u8], n: usize)
    requires { n ≤ length out.old }
    ensures { Wrote (replicate n 0) out.old out.new }
{
    out[..n].fill(0);
}
