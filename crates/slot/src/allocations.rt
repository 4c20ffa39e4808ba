// An allocation: fresh, live, and whether it is one that a search over the slots looks for.
ghost use Rattle.std.specs.Prelude.{◌≡◌};
ghost use Rattle.slot.specs.Slot.{fresh_allocation, live_allocation, holds, holds_port, holds_user};

use crate::{Allocation, fresh_transport_address, is_live};
use address::FiveTuple;

pub(crate) fn fresh_allocation() -> Allocation
    ensures { result ≡ fresh_allocation }
{
    let peer = fresh_transport_address();
    let five_tuple = FiveTuple {
        client: peer,
        server: peer,
        protocol: 0,
    };
    Allocation {
        user: 0,
        five_tuple,
        port: 0,
        expiry: 0,
    }
}

pub fn allocation_is_live(time: u64, allocation: Allocation) -> bool
    ensures { result ≡ live_allocation time allocation }
{
    is_live(time, allocation.expiry)
}

// Whether the allocation is live and has the 5-tuple.
// One line each: a function over the test would need a contract about every test.
#[tactic(auto, using(address::proofs::Laws::eq_five_tuple, address::proofs::Laws::other_client_port), unfolding(crate::specs::Slot::holds, choice::specs::Choice::both))]
pub fn holds(time: u64, five_tuple: FiveTuple, allocation: Allocation) -> bool
    ensures { result ≡ holds time five_tuple allocation }
{
    // The port is compared first: it tells most clients apart, and every slot up to the client's own is asked.
    allocation.five_tuple.client.port == five_tuple.client.port
        && allocation_is_live(time, allocation)
        && allocation.five_tuple == five_tuple
}

// Whether the allocation is live and has the relay port.
#[tactic(auto, unfolding(crate::specs::Slot::holds_port, choice::specs::Choice::both))]
pub fn holds_port(time: u64, port: u16, allocation: Allocation) -> bool
    ensures { result ≡ holds_port time port allocation }
{
    allocation_is_live(time, allocation) && allocation.port == port
}

// Whether the allocation is live and is the user's.
#[tactic(auto, unfolding(crate::specs::Slot::holds_user, choice::specs::Choice::both))]
pub fn holds_user(time: u64, user: u8, allocation: Allocation) -> bool
    ensures { result ≡ holds_user time user allocation }
{
    allocation_is_live(time, allocation) && allocation.user == user
}
