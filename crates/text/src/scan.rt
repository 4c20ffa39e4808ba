// The search for a byte in lent bytes, one at a time or sixteen at once.
ghost use Rattle.std.specs.Prelude.{◌≡◌, true, ◌≤◌, length};
ghost use Rattle.text.specs.Scan.{index_of};
ghost use Rattle.text.specs.Inner.{Past};

const BLOCK: usize = 16;

// Whether the byte is none of the block's: all of them are tested at once.
fn is_past(block: &[u8], b: u8) -> bool
    ensures { result ≡ true → Past block.now b }
{
    let mut past = true;
    for c in block {
        past &= *c != b;
    }
    past
}

// The place of the first b, or the length where there is none: one byte after another.
pub fn find(a: &[u8], b: u8) -> usize
    ensures { (result ≡ index_of b a.now) × (result ≤ length a.now) }
{
    a.iter().position(|c| *c == b).unwrap_or(a.len())
}

// The same, sixteen bytes at once.
pub fn find_far(a: &[u8], b: u8) -> usize
    ensures { (result ≡ index_of b a.now) × (result ≤ length a.now) }
{
    let mut start: usize = 0;
    // A step of sixteen with a rest: chunks would search the rest apart, and be no plainer.
    while BLOCK <= a.len() - start {
        if !is_past(&a[start..start + BLOCK], b) {
            break;
        }
        start += BLOCK;
    }
    start + find(&a[start..], b)
}
