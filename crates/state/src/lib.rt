// The relay's state: the slots, and what is kept beside them. One step over it is a definition (specs/Step.antt), with its laws in proofs/; the
// functions that take the step are the relay's.
#![tactic(auto)]

ghost use Rattle.std.specs.Prelude.{◌≡◌, OnErr};
ghost use Rattle.state.specs.State.{fresh_bookkeeping, at_clock, denying, Denied};

use denied::read_denied;
use denied::tree::none_denied;
use refusal::Refusal;

// The clock, the time of the last call that was not refused; and the tree of denied prefixes, which no call changes.
#[derive(Clone, Copy)]
pub struct Bookkeeping {
    pub clock: u64,
    pub denied: [u16; 1536],
}

pub fn fresh_bookkeeping() -> Bookkeeping
    ensures { result ≡ fresh_bookkeeping }
{
    let denied = none_denied();
    Bookkeeping { clock: 0, denied }
}

// In place: nothing else of the struct is touched.
pub fn set_clock(bookkeeping: &mut Bookkeeping, time: u64)
    ensures { bookkeeping.new ≡ at_clock time bookkeeping.old }
{
    bookkeeping.clock = time;
}

// Reads a text of denied prefixes, between calls; how many nodes its tree has. A text that is refused changes nothing.
pub fn deny(bookkeeping: &mut Bookkeeping, text: &[u8]) -> Result<usize, Refusal>
    ensures gives { Denied (denying bookkeeping.old text.now) result bookkeeping.new }
    ensures refused { OnErr result (bookkeeping.new ≡ bookkeeping.old) }
{
    read_denied(&mut bookkeeping.denied, text)
}
