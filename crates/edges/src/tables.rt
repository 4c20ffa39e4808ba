// Tables that are made up.
use crate::denials::with_number;
use crate::fields::{address, number, number_u8, number_u16, peer, transaction_id};
use address::{Address, FiveTuple, TransportAddress};
use relay::Held;
use rules::answer::Outcome;
use slot::{Allocation, Channel, Permission, Slot, fresh_slot};
use state::{Bookkeeping, fresh_bookkeeping};

pub(crate) fn empty() -> Held {
    let slots = [fresh_slot(); 64];
    let bookkeeping = fresh_bookkeeping();
    let outcome = Outcome::DroppedOther;
    Held {
        slots,
        bookkeeping,
        outcome,
    }
}

// The table with another clock.
fn at_clock(held: Held, clock: u64) -> Held {
    let bookkeeping = Bookkeeping {
        clock,
        ..held.bookkeeping
    };
    Held {
        bookkeeping,
        ..held
    }
}

fn slot_of(held: &Held, place: usize) -> Slot {
    if place < 64 {
        held.slots[place]
    } else {
        fresh_slot()
    }
}

// The table with a slot in that place; from 64 on, in every place.
fn with(held: Held, place: usize, slot: Slot) -> Held {
    let mut slots = held.slots;
    if place < 64 {
        slots[place] = slot;
    } else {
        slots = [slot; 64];
    }
    Held { slots, ..held }
}

// `A` place, user, client address, client port, relay port, expiry, transaction id.
fn allocation(held: Held, line: &[u8]) -> Held {
    let server = TransportAddress {
        address: Address::V4(0xcb007105),
        port: 3478,
    };
    let five_tuple = FiveTuple {
        client: peer(line, 3, 4),
        server,
        protocol: 17,
    };
    let allocation = Allocation {
        user: number_u8(line, 2),
        five_tuple,
        port: number_u16(line, 5),
        expiry: number(line, 6),
    };
    let slot = Slot {
        allocation,
        transaction_id: transaction_id(line, 7),
        ..fresh_slot()
    };
    with(held, number(line, 1) as usize, slot)
}

// `E` place, entry, address, expiry: a permission in that entry; from 8 on, in every entry.
fn permission(held: Held, line: &[u8]) -> Held {
    let place = number(line, 1) as usize;
    let entry = number(line, 2) as usize;
    let address = address(line, 3);
    let expiry = number(line, 4);
    let permission = Permission { address, expiry };
    let slot = slot_of(&held, place);
    let mut permissions = slot.permissions;
    if entry < 8 {
        permissions[entry] = permission;
    } else {
        permissions = [permission; 8];
    }
    with(
        held,
        place,
        Slot {
            permissions,
            ..slot
        },
    )
}

// `C` place, entry, number, address, port, expiry: a channel in that entry; from 8 on, in every entry.
fn channel(held: Held, line: &[u8]) -> Held {
    let place = number(line, 1) as usize;
    let entry = number(line, 2) as usize;
    let peer = peer(line, 4, 5);
    let channel = Channel {
        number: number_u16(line, 3),
        peer,
        expiry: number(line, 6),
    };
    let slot = slot_of(&held, place);
    let mut channels = slot.channels;
    if entry < 8 {
        channels[entry] = channel;
    } else {
        channels = [channel; 8];
    }
    with(held, place, Slot { channels, ..slot })
}

// The table that a line makes: `N` an empty one, `T` with that clock, `A`, `E` and `C` with an allocation, a permission, a channel, `G` with a
// number in the tree of denied prefixes.
pub(crate) fn made(held: Held, letter: u8, line: &[u8]) -> Held {
    match letter {
        b'N' => empty(),
        b'T' => at_clock(held, number(line, 1)),
        b'A' => allocation(held, line),
        b'E' => permission(held, line),
        b'C' => channel(held, line),
        b'G' => with_number(held, line),
        _ => held,
    }
}
