// CreatePermission: its checks, and the fold over its peer addresses.
ghost use Rattle.std.specs.Prelude.{◌≡◌, ◌≤◌, ◌^◌, length, is_some, IfOk};
ghost use Rattle.stun.specs.Values.{peers};
ghost use Rattle.rules.specs.Codes.{code_of};
ghost use Rattle.rules.specs.Inner.{Answers, slot_or_fresh};
ghost use Rattle.slot.specs.Inner.{made};
ghost use Rattle.choice.specs.Choice.{any};
ghost use Rattle.rules.specs.Values.{none, malformed_peer, ipv6_peer};
ghost use Rattle.permission_rules.specs.Permissions.{permit_peer, permit_all, create_permission_code, create_permission};

use address::TransportAddress;
use messages::put_bare_success;
use rules::answer::{Answer, Outcome, respond_error};
use rules::codes::{ErrorCode, check};
use rules::requests::{ClientCall, check_own};
use rules::values::{ipv6_peer, malformed_peer};
use slot::Slot;
use slot::permissions::permit;
use stun::kinds::Method;
use stun::peers::Peers;
use stun::values::{NOBODY, transaction_id};

fn no_peer(s: &[u8]) -> bool
    requires { 20 ≤ length s.now }
    ensures { result ≡ none (peers s.now) }
{
    Peers::of(s).next().is_none()
}

#[tactic(auto, unfolding(crate::specs::Permissions::permit_peer))]
fn permit_peer(time: u64, value: Option<TransportAddress>, slot: Slot) -> Option<Slot>
    requires { time ≤ 2 ^ 40 }
    ensures { result ≡ made (permit_peer time value slot) }
{
    permit(time, value.unwrap_or(NOBODY).address, slot)
}

// Each peer address is given its permission in order; none where one finds no room.
fn permit_all(s: &[u8], time: u64, slot: &Slot) -> Option<Slot>
    requires { (20 ≤ length s.now) × (time ≤ 2 ^ 40) }
    ensures { result ≡ made (permit_all time (peers s.now) slot.now slot.now) }
{
    let mut done = *slot;
    for value in Peers::of(s) {
        done = permit_peer(time, value, done)?;
    }
    Some(done)
}

fn any_malformed(s: &[u8]) -> bool
    requires { 20 ≤ length s.now }
    ensures { result ≡ any malformed_peer (peers s.now) }
{
    Peers::of(s).any(malformed_peer)
}

fn any_ipv6(s: &[u8]) -> bool
    requires { 20 ≤ length s.now }
    ensures { result ≡ any ipv6_peer (peers s.now) }
{
    Peers::of(s).any(ipv6_peer)
}

// The checks of a CreatePermission, and the slot with the permissions that it makes.
#[tactic(auto, using(crate::proofs::Laws::room_code, crate::proofs::Laws::room_slot), unfolding(crate::specs::Permissions::create_permission_code, rules::specs::Change::check))]
fn permitted(
    s: &[u8],
    call: ClientCall,
    denied: bool,
    own: Option<&Slot>,
) -> Result<Slot, ErrorCode>
    requires { (20 ≤ length s.now) × (call.time ≤ 2 ^ 40) }
    ensures code { code_of result ≡ create_permission_code call s.now denied (is_some own.entry) (slot_or_fresh own.entry) }
    ensures slot { IfOk result (λ slot. slot ≡ (permit_all call.time (peers s.now) (slot_or_fresh own.entry) (slot_or_fresh own.entry)).slot) }
{
    let slot = check_own(s, call, own)?;
    check(no_peer(s), ErrorCode::BadRequest)?;
    check(any_malformed(s), ErrorCode::BadRequest)?;
    check(any_ipv6(s), ErrorCode::PeerAddressFamilyMismatch)?;
    check(denied, ErrorCode::Forbidden)?;
    permit_all(s, call.time, slot).ok_or(ErrorCode::InsufficientCapacity)
}

// A CreatePermission. `own` is the live slot of the 5-tuple.
pub fn create_permission(
    s: &[u8],
    reply: &mut [u8],
    call: ClientCall,
    denied: bool,
    own: Option<&Slot>,
) -> Answer
    requires { (20 ≤ length s.now) × (1536 ≤ length reply.old) × (call.time ≤ 2 ^ 40) }
    ensures { Answers (create_permission call s.now denied (is_some own.entry) (slot_or_fresh own.entry)) reply.old reply.new result }
{
    let five_tuple = call.five_tuple;
    let slot = match permitted(s, call, denied, own) {
        Ok(slot) => slot,
        Err(code) => return respond_error(
            s,
            reply,
            five_tuple,
            Method::CreatePermission,
            code.number(),
        ),
    };
    let len = put_bare_success(reply, Method::CreatePermission, transaction_id(s));
    let outcome = Outcome::ToClient { five_tuple, len };
    Answer {
        outcome,
        written: Some(slot),
    }
}
