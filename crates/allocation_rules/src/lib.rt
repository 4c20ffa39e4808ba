// Allocate and Refresh: from a lent datagram, the slot that was found and what the look over the table learned, the outcome, the slot and the reply.
#![tactic(auto)]

ghost use Rattle.std.specs.Prelude.{◌≡◌, ◌≤◌, ◌^◌, length, is_some, IfSome, IfOk};
ghost use Rattle.rules.specs.Codes.{code_of};
ghost use Rattle.rules.specs.Inner.{Gives, Answers, slot_or_fresh};
ghost use Rattle.allocation_rules.specs.Inner.{room_in};
ghost use Rattle.allocation_rules.specs.Allocations.{repeats, allocate_code, allocated, allocate_reply, allocate, refresh_code, renewed, refreshed, refresh};

use address::TransactionId;
use lifetimes::{granted, granted_refresh, seconds_left};
use messages::{put_allocate_success, put_refresh_success};
use rules::answer::{Answer, Outcome, respond_error};
use rules::codes::{ErrorCode, check};
use rules::requests::{ClientCall, check_own, check_request};
use rules::values::{missing, other_than, wrong_length};
use slot::{Allocation, Slot, fresh_slot};
use stun::kinds::Method;
use stun::values::{lifetime, requested_address_family, requested_transport, transaction_id};

pub mod lifetimes;
pub mod ports;

// What Allocate asks of the whole table.
#[derive(Clone, Copy)]
pub struct Capacity {
    // How many live slots the user holds.
    pub held: usize,
    // Some slot is not live.
    pub free: bool,
    // The port that a new allocation gets.
    pub port: u16,
}

// The slot that an Allocate made, where it is that one come again: of the same transaction and user.
#[tactic(auto, using(address::proofs::Laws::eq_transaction_id), unfolding(crate::specs::Allocations::repeats, choice::specs::Choice::both))]
fn repeated<'a>(s: &[u8], call: ClientCall, own: Option<&'a Slot>) -> Option<&'a Slot>
    requires { 20 ≤ length s.now }
    ensures again { is_some result ≡ repeats call s.now (is_some own.entry) (slot_or_fresh own.entry) }
    ensures slot { IfSome result (λ slot. slot.now ≡ slot_or_fresh own.entry) }
{
    let Some(slot) = own else {
        return None;
    };
    let id = transaction_id(s);
    let same = slot.transaction_id == id;
    if same && slot.allocation.user == call.user {
        Some(slot)
    } else {
        None
    }
}

// A repeat is no error, and nothing after it is looked at.
#[tactic(auto, unfolding(crate::specs::Allocations::allocate_code, rules::specs::Change::check))]
fn check_allocate(
    s: &[u8],
    call: ClientCall,
    again: bool,
    capacity: Capacity,
    own: Option<&Slot>,
) -> Result<(), ErrorCode>
    ensures { code_of result ≡ allocate_code call s.now again (room_in capacity (is_some own.entry)) }
{
    let transport = requested_transport(s);
    let family = requested_address_family(s);
    check_request(s, call)?;
    if again {
        return Ok(());
    }
    check(own.is_some(), ErrorCode::AllocationMismatch)?;
    check(missing(transport), ErrorCode::BadRequest)?;
    check(
        other_than(17, transport),
        ErrorCode::UnsupportedTransportProtocol,
    )?;
    check(wrong_length(family), ErrorCode::BadRequest)?;
    check(other_than(1, family), ErrorCode::AddressFamilyNotSupported)?;
    check(wrong_length(lifetime(s)), ErrorCode::BadRequest)?;
    check(8 <= capacity.held, ErrorCode::AllocationQuotaReached)?;
    check(!capacity.free, ErrorCode::InsufficientCapacity)
}

// The slot of a new allocation.
fn allocated(call: ClientCall, id: TransactionId, port: u16, seconds: u32) -> Slot
    requires { (call.time ≤ 2 ^ 40) × (seconds ≤ 3600) }
    ensures { result ≡ allocated call id port seconds }
{
    let five_tuple = call.five_tuple;
    let allocation = Allocation {
        user: call.user,
        five_tuple,
        port,
        expiry: call.time + seconds as u64,
    };
    Slot {
        allocation,
        transaction_id: id,
        ..fresh_slot()
    }
}

// The success response to an Allocate.
fn give_allocated(s: &[u8], reply: &mut [u8], call: ClientCall, port: u16, seconds: u32) -> Outcome
    requires { (20 ≤ length s.now) × (1536 ≤ length reply.old) }
    ensures { Gives (allocate_reply call s.now port seconds) reply.old reply.new result }
{
    let id = transaction_id(s);
    let five_tuple = call.five_tuple;
    let client = five_tuple.client;
    let len = put_allocate_success(reply, id, call.relay, port, seconds, client);
    Outcome::ToClient { five_tuple, len }
}

// An Allocate. `own` is the live slot of the 5-tuple.
pub fn allocate(
    s: &[u8],
    reply: &mut [u8],
    call: ClientCall,
    capacity: Capacity,
    own: Option<&Slot>,
) -> Answer
    requires { (20 ≤ length s.now) × (1536 ≤ length reply.old) × (call.time ≤ 2 ^ 40) }
    ensures { Answers (allocate call s.now (room_in capacity (is_some own.entry)) (slot_or_fresh own.entry)) reply.old reply.new result }
{
    let again = repeated(s, call, own);
    if let Err(code) = check_allocate(s, call, again.is_some(), capacity, own) {
        let five_tuple = call.five_tuple;
        return respond_error(s, reply, five_tuple, Method::Allocate, code.number());
    }
    let seconds = granted(lifetime(s));
    if let Some(slot) = again {
        let stored = slot.allocation;
        let left = seconds_left(call.time, stored.expiry);
        return Answer {
            outcome: give_allocated(s, reply, call, stored.port, left),
            written: None,
        };
    }
    let slot = allocated(call, transaction_id(s), capacity.port, seconds);
    let outcome = give_allocated(s, reply, call, capacity.port, seconds);
    Answer {
        outcome,
        written: Some(slot),
    }
}

// The checks of a Refresh, and the slot that it refreshes.
#[tactic(auto, unfolding(crate::specs::Allocations::refresh_code, rules::specs::Change::check))]
fn check_refresh<'a>(
    s: &[u8],
    call: ClientCall,
    own: Option<&'a Slot>,
) -> Result<&'a Slot, ErrorCode>
    ensures code { code_of result ≡ refresh_code call s.now (is_some own.entry) (slot_or_fresh own.entry) }
    ensures slot { IfOk result (λ slot. slot.now ≡ slot_or_fresh own.entry) }
{
    let family = requested_address_family(s);
    let slot = check_own(s, call, own)?;
    check(wrong_length(lifetime(s)), ErrorCode::BadRequest)?;
    check(wrong_length(family), ErrorCode::BadRequest)?;
    check(other_than(1, family), ErrorCode::PeerAddressFamilyMismatch)?;
    Ok(slot)
}

fn renewed(expiry: u64, slot: &Slot) -> Slot
    ensures { result ≡ renewed expiry slot.now }
{
    let mut renewed = *slot;
    renewed.allocation.expiry = expiry;
    renewed
}

// The slot with its new expiry, or fresh where 0 seconds are granted.
fn refreshed(time: u64, seconds: u32, slot: &Slot) -> Slot
    requires { (time ≤ 2 ^ 40) × (seconds ≤ 3600) }
    ensures { result ≡ refreshed time seconds slot.now }
{
    if seconds == 0 {
        return fresh_slot();
    }
    renewed(time + seconds as u64, slot)
}

// A Refresh. `own` is the live slot of the 5-tuple.
pub fn refresh(s: &[u8], reply: &mut [u8], call: ClientCall, own: Option<&Slot>) -> Answer
    requires { (20 ≤ length s.now) × (1536 ≤ length reply.old) × (call.time ≤ 2 ^ 40) }
    ensures { Answers (refresh call s.now (is_some own.entry) (slot_or_fresh own.entry)) reply.old reply.new result }
{
    let five_tuple = call.five_tuple;
    let was = match check_refresh(s, call, own) {
        Ok(was) => was,
        Err(code) => return respond_error(s, reply, five_tuple, Method::Refresh, code.number()),
    };
    let seconds = granted_refresh(lifetime(s));
    let slot = refreshed(call.time, seconds, was);
    let len = put_refresh_success(reply, transaction_id(s), seconds);
    let outcome = Outcome::ToClient { five_tuple, len };
    Answer {
        outcome,
        written: Some(slot),
    }
}
