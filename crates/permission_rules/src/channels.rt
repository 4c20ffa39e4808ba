// ChannelBind: its checks, and the permission and the channel that it makes.
ghost use Rattle.std.specs.Prelude.{◌≡◌, ◌≤◌, ◌^◌, length, is_some, IfOk};
ghost use Rattle.stun.specs.Values.{peer_or_nobody, first_peer};
ghost use Rattle.rules.specs.Values.{channel_number, number_given};
ghost use Rattle.permission_rules.specs.Permissions.{bound, channel_bind_code, channel_bind};
ghost use Rattle.permission_rules.specs.Inner.{bound_where_room};
ghost use Rattle.rules.specs.Codes.{code_of};
ghost use Rattle.rules.specs.Inner.{Answers, slot_or_fresh};

use address::TransportAddress;
use messages::put_bare_success;
use rules::answer::{Answer, Outcome, respond_error};
use rules::codes::{ErrorCode, check};
use rules::requests::{ClientCall, check_own};
use rules::values::{is_ipv6, malformed_peer, missing, number_given};
use slot::Slot;
use slot::channels::{bind, is_channel_number, number_taken, peer_taken};
use slot::permissions::permit;
use stun::kinds::Method;
use stun::peers::first_peer;
use stun::values::{NOBODY, channel_number, transaction_id};

// The slot with the permission and the channel, where there is room for both.
fn bind_both(time: u64, number: u16, peer: TransportAddress, slot: &Slot) -> Option<Slot>
    requires { time ≤ 2 ^ 40 }
    ensures { result ≡ bound_where_room time number peer slot.now }
{
    let permitted = permit(time, peer.address, *slot)?;
    bind(time, number, peer, permitted)
}

// The checks of a ChannelBind, and the slot with the permission and the channel that it makes.
#[tactic(auto, using(crate::proofs::Laws::bound_code, crate::proofs::Laws::bound_slot), unfolding(crate::specs::Permissions::channel_bind_code, rules::specs::Change::check))]
fn bound(s: &[u8], call: ClientCall, denied: bool, own: Option<&Slot>) -> Result<Slot, ErrorCode>
    requires { (20 ≤ length s.now) × (call.time ≤ 2 ^ 40) }
    ensures code { code_of result ≡ channel_bind_code call s.now denied (is_some own.entry) (slot_or_fresh own.entry) }
    ensures slot { IfOk result (λ slot. slot ≡ bound call.time (number_given (channel_number s.now)) (peer_or_nobody (first_peer s.now)) (slot_or_fresh own.entry)) }
{
    let number = number_given(channel_number(s)) as u16;
    let value = first_peer(s);
    let peer = value.unwrap_or(NOBODY);
    let slot = check_own(s, call, own)?;
    let channels = slot.channels;
    check(missing(channel_number(s)), ErrorCode::BadRequest)?;
    check(malformed_peer(value), ErrorCode::BadRequest)?;
    check(!is_channel_number(number), ErrorCode::BadRequest)?;
    check(is_ipv6(peer.address), ErrorCode::PeerAddressFamilyMismatch)?;
    check(denied, ErrorCode::Forbidden)?;
    check(
        number_taken(call.time, number, peer, channels),
        ErrorCode::BadRequest,
    )?;
    check(
        peer_taken(call.time, number, peer, channels),
        ErrorCode::BadRequest,
    )?;
    bind_both(call.time, number, peer, slot).ok_or(ErrorCode::InsufficientCapacity)
}

// A ChannelBind. `own` is the live slot of the 5-tuple.
pub fn channel_bind(
    s: &[u8],
    reply: &mut [u8],
    call: ClientCall,
    denied: bool,
    own: Option<&Slot>,
) -> Answer
    requires { (20 ≤ length s.now) × (1536 ≤ length reply.old) × (call.time ≤ 2 ^ 40) }
    ensures { Answers (channel_bind call s.now denied (is_some own.entry) (slot_or_fresh own.entry)) reply.old reply.new result }
{
    let five_tuple = call.five_tuple;
    let slot = match bound(s, call, denied, own) {
        Ok(slot) => slot,
        Err(code) => return respond_error(s, reply, five_tuple, Method::ChannelBind, code.number()),
    };
    let len = put_bare_success(reply, Method::ChannelBind, transaction_id(s));
    let outcome = Outcome::ToClient { five_tuple, len };
    Answer {
        outcome,
        written: Some(slot),
    }
}
