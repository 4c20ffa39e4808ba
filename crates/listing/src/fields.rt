// What a listing has a line of: an allocation, a permission or a channel, each with the fields of its line.
ghost use Rattle.std.specs.Prelude.{ℕ, ◌≡◌, ◌<◌, ◌≤◌, Bool, List, length};
ghost use Rattle.slot.specs.Slot.{live_allocation, live_permission, live_channel};
ghost use Rattle.listing.specs.Inner.{fields_text};
ghost use Rattle.listing.specs.Listing.{allocation_line, permission_text, channel_text};

use address::Address;
use slot::allocations::allocation_is_live;
use slot::channels::channel_is_live;
use slot::permissions::permission_is_live;
use slot::{Allocation, Channel, Permission};

#[derive(Clone, Copy)]
pub enum Field {
    // A letter or a newline.
    Byte(u8),
    // A tab, and a number.
    Decimal(u64),
    // A tab, and an address.
    Hex(Address),
}

// What has a line of N fields where it is live. The number of a slot has at most two digits, a user three, a port and a channel's number
// five, an expiry twenty, and an address has at most 32.
pub(crate) trait Entry<const N: usize>: Copy {
    ghost live: { ℕ → Self → Bool };

    // Its line in the slot with that number.
    ghost line: { ℕ → Self → List ℕ };

    // How long its line is at most.
    ghost most: { ℕ };

    fn is_live(self, clock: u64) -> bool
        ensures { result ≡ live clock self };

    fn fields(self, k: usize) -> [Field; N]
        ensures is { fields_text result ≡ line k self }
        ensures most { k < 64 → length (line k self) ≤ most };
}

impl Entry<10> for Allocation {
    ghost live = { live_allocation };

    ghost line = { allocation_line };

    ghost most = { 114 };

    fn is_live(self, clock: u64) -> bool {
        allocation_is_live(clock, self)
    }

    fn fields(self, k: usize) -> [Field; 10] {
        let client = self.five_tuple.client;
        let server = self.five_tuple.server;
        [
            Field::Byte(b'A'),
            Field::Decimal(k as u64),
            Field::Decimal(self.user as u64),
            Field::Hex(client.address),
            Field::Decimal(client.port as u64),
            Field::Hex(server.address),
            Field::Decimal(server.port as u64),
            Field::Decimal(self.port as u64),
            Field::Decimal(self.expiry),
            Field::Byte(b'\n'),
        ]
    }
}

impl Entry<5> for Permission {
    ghost live = { live_permission };

    ghost line = { permission_text };

    ghost most = { 59 };

    fn is_live(self, clock: u64) -> bool {
        permission_is_live(clock, self)
    }

    fn fields(self, k: usize) -> [Field; 5] {
        [
            Field::Byte(b'P'),
            Field::Decimal(k as u64),
            Field::Hex(self.address),
            Field::Decimal(self.expiry),
            Field::Byte(b'\n'),
        ]
    }
}

impl Entry<7> for Channel {
    ghost live = { live_channel };

    ghost line = { channel_text };

    ghost most = { 71 };

    fn is_live(self, clock: u64) -> bool {
        channel_is_live(clock, self)
    }

    fn fields(self, k: usize) -> [Field; 7] {
        [
            Field::Byte(b'C'),
            Field::Decimal(k as u64),
            Field::Decimal(self.number as u64),
            Field::Hex(self.peer.address),
            Field::Decimal(self.peer.port as u64),
            Field::Decimal(self.expiry),
            Field::Byte(b'\n'),
        ]
    }
}
