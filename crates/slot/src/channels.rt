// A slot's channels: fresh, live, the one with a number or a peer, and the entry that takes one.
ghost use Rattle.std.specs.Prelude.{◌≡◌, ◌≤◌, ◌^◌};
ghost use Rattle.slot.specs.Search.{find, at_or};
ghost use Rattle.slot.specs.Slot.{fresh_channel, is_channel_number, live_channel, numbered, leads_to};
ghost use Rattle.slot.specs.Slot.{number_taken, peer_taken, free_channel, channel_entry, bind};
ghost use Rattle.slot.specs.Inner.{made};

use crate::{Channel, Slot, fresh_transport_address, is_live};
use address::TransportAddress;

pub(crate) fn fresh_channel() -> Channel
    ensures { result ≡ fresh_channel }
{
    let peer = fresh_transport_address();
    Channel {
        number: 0,
        peer,
        expiry: 0,
    }
}

#[tactic(auto, unfolding(crate::specs::Slot::is_channel_number, choice::specs::Choice::both))]
pub fn is_channel_number(number: u16) -> bool
    ensures { result ≡ is_channel_number number }
{
    0x4000 <= number && number <= 0x4fff
}

#[tactic(auto, unfolding(crate::specs::Slot::live_channel, choice::specs::Choice::both))]
pub fn channel_is_live(time: u64, channel: Channel) -> bool
    ensures { result ≡ live_channel time channel }
{
    is_live(time, channel.expiry) && is_channel_number(channel.number)
}

// Whether the channel is live and has the number.
// One line each: a function over the test would need a contract about every test.
#[tactic(auto, unfolding(crate::specs::Slot::numbered, choice::specs::Choice::both))]
pub(crate) fn numbered(time: u64, number: u16, channel: Channel) -> bool
    ensures { result ≡ numbered time number channel }
{
    channel_is_live(time, channel) && channel.number == number
}

// Whether the channel is live and for the peer, address and port.
#[tactic(auto, using(address::proofs::Laws::eq_transport_address), unfolding(crate::specs::Slot::leads_to, choice::specs::Choice::both))]
pub(crate) fn leads_to(time: u64, peer: TransportAddress, channel: Channel) -> bool
    ensures { result ≡ leads_to time peer channel }
{
    channel_is_live(time, channel) && channel.peer == peer
}

// The lowest live channel with the number.
// One line each: a function over the test would need a contract about every test.
pub fn channel_by_number(time: u64, number: u16, channels: [Channel; 8]) -> Option<usize>
    ensures { result ≡ find (numbered time number) channels }
{
    channels
        .iter()
        .position(|channel| numbered(time, number, *channel))
}

// The lowest live channel for the peer.
pub fn channel_by_peer(time: u64, peer: TransportAddress, channels: [Channel; 8]) -> Option<usize>
    ensures { result ≡ find (leads_to time peer) channels }
{
    channels
        .iter()
        .position(|channel| leads_to(time, peer, *channel))
}

// The channel at the place found, or a fresh one.
pub fn channel_at(found: Option<usize>, channels: [Channel; 8]) -> Channel
    ensures { result ≡ at_or fresh_channel found channels }
{
    match found {
        Some(i) if i < 8 => channels[i],
        _ => fresh_channel(),
    }
}

// Whether the number is live for another peer.
// Two short functions: one over the search and the test would need a contract about every pair of them.
#[tactic(auto, using(crate::proofs::Laws::has_is, address::proofs::Laws::eq_transport_address), unfolding(crate::specs::Slot::number_taken, choice::specs::Choice::both))]
pub fn number_taken(time: u64, number: u16, peer: TransportAddress, channels: [Channel; 8]) -> bool
    ensures { result ≡ number_taken time number peer channels }
{
    let found = channel_by_number(time, number, channels);
    let channel = channel_at(found, channels);
    found.is_some() && channel.peer != peer
}

// Whether the peer is live on another number.
#[tactic(auto, using(crate::proofs::Laws::has_is), unfolding(crate::specs::Slot::peer_taken, choice::specs::Choice::both))]
pub fn peer_taken(time: u64, number: u16, peer: TransportAddress, channels: [Channel; 8]) -> bool
    ensures { result ≡ peer_taken time number peer channels }
{
    let found = channel_by_peer(time, peer, channels);
    let channel = channel_at(found, channels);
    found.is_some() && channel.number != number
}

// The lowest channel that isn't live. A trait of what expires would be longer than this and the one of permissions.
fn lowest_free(time: u64, channels: [Channel; 8]) -> Option<usize>
    ensures { result ≡ find (free_channel time) channels }
{
    channels
        .iter()
        .position(|channel| !channel_is_live(time, *channel))
}

// The entry for a number: its live channel, or else the lowest that isn't live.
// As `permission_entry`: a trait of what expires, for the two lines of each, would be longer than both.
pub(crate) fn channel_entry(time: u64, number: u16, channels: [Channel; 8]) -> Option<usize>
    ensures { result ≡ channel_entry time number channels }
{
    let live = channel_by_number(time, number, channels);
    let free = lowest_free(time, channels);
    live.or(free)
}

// The slot with a channel of that number for the peer that lasts 600 seconds from now, where there is room for it.
pub fn bind(time: u64, number: u16, peer: TransportAddress, slot: Slot) -> Option<Slot>
    requires { time ≤ 2 ^ 40 }
    ensures { result ≡ made (bind time number peer slot) }
{
    let entry = channel_entry(time, number, slot.channels)?;
    let mut bound = slot;
    bound.channels[entry] = Channel {
        number,
        peer,
        expiry: time + 600,
    };
    Some(bound)
}
