// Send, ChannelData and a peer's datagram: data passes, or is dropped with its cause, and no slot is changed.
#![tactic(auto)]

ghost use Rattle.std.specs.Prelude.{◌≡◌, ◌≤◌, length, is_some};
ghost use Rattle.messages.specs.Inner.{Sent};
ghost use Rattle.rules.specs.Change.{outcome_of};
ghost use Rattle.rules.specs.Inner.{Gives, slot_or_fresh};
ghost use Rattle.data_rules.specs.Data.{permission_of, send, send_channel_data, relayed, relay_from_peer};

use address::{TransactionId, TransportAddress};
use messages::{put_channel_data, put_data_indication};
use rules::answer::Outcome;
use rules::requests::ClientCall;
use rules::values::{any_unknown, ipv4_of, is_ipv6};
use slot::Slot;
use slot::channels::{channel_at, channel_by_number, channel_by_peer};
use slot::permissions::{PermissionState, permission_state};
use stun::channel_data::read_channel_data;
use stun::kinds::AttributeKind;
use stun::message::first_attribute;
use stun::peers::first_peer;

// What the permissions say of the peer's IP address.
#[tactic(auto, unfolding(crate::specs::Data::permission_of))]
fn permission_of(time: u64, peer: TransportAddress, slot: &Slot) -> PermissionState
    ensures { result ≡ permission_of time peer slot.now }
{
    permission_state(time, peer.address, slot.permissions)
}

// A Send indication. `own` is the live slot of the 5-tuple.
#[tactic(auto, unfolding(crate::specs::Data::send, crate::specs::Data::send_cause, crate::specs::Data::unless_dropped, choice::specs::Choice::any, rules::specs::Values::malformed_peer, rules::specs::Values::ipv6_peer))]
pub fn send(s: &[u8], call: ClientCall, own: Option<&Slot>) -> Outcome
    requires { 20 ≤ length s.now }
    ensures { result ≡ outcome_of (send call s.now (is_some own.entry) (slot_or_fresh own.entry)) }
{
    if any_unknown(s) {
        return Outcome::DroppedOther;
    }
    let Some(slot) = own else {
        return Outcome::DroppedOther;
    };
    let Some(peer) = first_peer(s) else {
        return Outcome::DroppedOther;
    };
    if is_ipv6(peer.address) {
        return Outcome::DroppedOther;
    }
    let Some(value) = first_attribute(s, AttributeKind::DATA) else {
        return Outcome::DroppedOther;
    };
    match permission_of(call.time, peer, slot) {
        PermissionState::Live => Outcome::ToPeer {
            port: slot.allocation.port,
            peer,
            start: value.start,
            len: value.len,
        },
        PermissionState::Lapsed => Outcome::DroppedLapsed,
        PermissionState::Never => Outcome::DroppedNever,
    }
}

// A ChannelData message. `own` is the live slot of the 5-tuple.
#[tactic(auto, unfolding(crate::specs::Data::send_channel_data))]
pub fn send_channel_data(s: &[u8], call: ClientCall, own: Option<&Slot>) -> Outcome
    ensures { result ≡ outcome_of (send_channel_data call s.now (is_some own.entry) (slot_or_fresh own.entry)) }
{
    let Some(message) = read_channel_data(s) else {
        return Outcome::DroppedOther;
    };
    let Some(slot) = own else {
        return Outcome::DroppedOther;
    };
    let channels = slot.channels;
    let found = channel_by_number(call.time, message.number, channels);
    if found.is_none() {
        return Outcome::DroppedOther;
    }
    let channel = channel_at(found, channels);
    Outcome::ToPeer {
        port: slot.allocation.port,
        peer: channel.peer,
        start: message.start,
        len: message.len,
    }
}

// Writes what a peer's datagram becomes, and says how long that is.
fn relay_data(
    s: &[u8],
    reply: &mut [u8],
    time: u64,
    source: TransportAddress,
    id: TransactionId,
    slot: &Slot,
) -> usize
    requires { (length s.now ≤ 1500) × (1536 ≤ length reply.old) }
    ensures { Sent (relayed time source id s.now slot.now) reply.old reply.new result }
{
    let channels = slot.channels;
    let found = channel_by_peer(time, source, channels);
    if found.is_some() {
        let channel = channel_at(found, channels);
        return put_channel_data(reply, channel.number, s);
    }
    put_data_indication(reply, id, ipv4_of(source.address), source.port, s)
}

// A peer's datagram. `own` is the live slot of its relay port.
pub fn relay_from_peer(
    s: &[u8],
    reply: &mut [u8],
    time: u64,
    source: TransportAddress,
    id: TransactionId,
    own: Option<&Slot>,
) -> Outcome
    requires { (length s.now ≤ 1500) × (1536 ≤ length reply.old) }
    ensures { Gives (relay_from_peer time source id s.now (is_some own.entry) (slot_or_fresh own.entry)) reply.old reply.new result }
{
    let Some(slot) = own else {
        return Outcome::DroppedOther;
    };
    if is_ipv6(source.address) {
        return Outcome::DroppedOther;
    }
    match permission_of(time, source, slot) {
        PermissionState::Live => {
            let len = relay_data(s, reply, time, source, id, slot);
            let five_tuple = slot.allocation.five_tuple;
            Outcome::ToClient { five_tuple, len }
        }
        PermissionState::Lapsed => Outcome::DroppedLapsed,
        PermissionState::Never => Outcome::DroppedNever,
    }
}
