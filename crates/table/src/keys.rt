// What a look over the slots is for.
ghost use Rattle.std.specs.Prelude.{◌≡◌};
ghost use Rattle.table.specs.Inner.{keyed};

use address::FiveTuple;
use slot::Allocation;
use slot::allocations::{holds, holds_port};

// The 5-tuple of a client, or a relay port.
#[derive(Clone, Copy)]
pub enum Key {
    Client(FiveTuple),
    Port(u16),
}

// Whether the allocation is live and has the key.
pub(crate) fn matches(time: u64, key: Key, allocation: Allocation) -> bool
    ensures { result ≡ keyed time key allocation }
{
    match key {
        Key::Client(five_tuple) => holds(time, five_tuple, allocation),
        Key::Port(port) => holds_port(time, port, allocation),
    }
}

// The live slot of a key at that time; and where an allocation is to be made, the room that there is for that user.
#[derive(Clone, Copy)]
pub struct Wanted {
    pub time: u64,
    pub key: Key,
    pub room_for: Option<u8>,
}
