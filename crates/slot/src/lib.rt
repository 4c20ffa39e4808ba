// The records of the relay's state, and the searches in one slot, all by value. A slot is what an allocation has: the allocation
// itself, the transaction id of the Allocate that made it, its permissions and its channels. Nothing here knows of the table that the
// slots are in.
#![tactic(auto)]

ghost use Rattle.std.specs.Prelude.{◌≡◌};
ghost use Rattle.slot.specs.Slot.{live, fresh_transport_address, fresh_transaction_id, fresh_slot};

use address::{Address, FiveTuple, TransactionId, TransportAddress};
use allocations::fresh_allocation;
use channels::fresh_channel;
use permissions::fresh_permission;

pub mod allocations;
pub mod channels;
pub mod permissions;
pub mod ports;

// An IP address that may send to the client and be sent to, at any port.
#[derive(Clone, Copy)]
pub struct Permission {
    pub address: Address,
    pub expiry: u64,
}

// A number that stands for a peer, in ChannelData.
#[derive(Clone, Copy)]
pub struct Channel {
    pub number: u16,
    pub peer: TransportAddress,
    pub expiry: u64,
}

// Whose the slot is, and its relay port: what every lookup over the slots reads.
#[derive(Clone, Copy)]
pub struct Allocation {
    pub user: u8,
    pub five_tuple: FiveTuple,
    pub port: u16,
    pub expiry: u64,
}

#[derive(Clone, Copy)]
pub struct Slot {
    pub allocation: Allocation,
    // The transaction id of the Allocate that made it. No lookup over the slots reads it.
    pub transaction_id: TransactionId,
    pub permissions: [Permission; 8],
    pub channels: [Channel; 8],
}

// Whether a thing with that expiry is live; at the moment of expiry it is not.
pub(crate) fn is_live(time: u64, expiry: u64) -> bool
    ensures { result ≡ live time expiry }
{
    time < expiry
}

// Port 0 of IPv4 0.0.0.0.
pub(crate) fn fresh_transport_address() -> TransportAddress
    ensures { result ≡ fresh_transport_address }
{
    let address = Address::V4(0);
    TransportAddress { address, port: 0 }
}

// Three words of 0.
fn fresh_transaction_id() -> TransactionId
    ensures { result ≡ fresh_transaction_id }
{
    TransactionId {
        high: 0,
        middle: 0,
        low: 0,
    }
}

// A slot with every number 0 and every address IPv4 0.0.0.0, so that nothing in it is live.
pub fn fresh_slot() -> Slot
    ensures { result ≡ fresh_slot }
{
    let allocation = fresh_allocation();
    let transaction_id = fresh_transaction_id();
    let permission = fresh_permission();
    let channel = fresh_channel();
    let permissions = [permission; 8];
    let channels = [channel; 8];
    Slot {
        allocation,
        transaction_id,
        permissions,
        channels,
    }
}
