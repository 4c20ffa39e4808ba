// What a client's call brings to the rules, and the checks that the requests share.
ghost use Rattle.std.specs.Prelude.{◌≡◌, ℕ, is_some, IfOk};
ghost use Rattle.rules.specs.Codes.{code_or};
ghost use Rattle.rules.specs.Inner.{slot_or_fresh};
ghost use Rattle.rules.specs.Requests.{request_code, own_code};

use crate::codes::{ErrorCode, check};
use crate::values::any_unknown;
use address::FiveTuple;
use slot::Slot;

// What a client's call brings beside its datagram.
#[derive(Clone, Copy)]
pub struct ClientCall {
    pub time: u64,
    pub user: u8,
    // The relay's IPv4 address.
    pub relay: u32,
    pub five_tuple: FiveTuple,
}

// The checks of every request.
#[tactic(auto, unfolding(crate::specs::Change::check, crate::specs::Requests::request_code))]
pub fn check_request(s: &[u8], call: ClientCall) -> Result<(), ErrorCode>
    ensures { (rest : ℕ) → code_or result rest ≡ request_code call s.now rest }
{
    check(call.user == 0, ErrorCode::Unauthorized)?;
    check(any_unknown(s), ErrorCode::UnknownAttribute)
}

// The checks of every request that needs a live allocation, and the slot of it. `own` is the live slot of the 5-tuple.
#[tactic(auto, unfolding(crate::specs::Change::check, crate::specs::Requests::own_code))]
pub fn check_own<'a>(
    s: &[u8],
    call: ClientCall,
    own: Option<&'a Slot>,
) -> Result<&'a Slot, ErrorCode>
    ensures code { (rest : ℕ) → code_or result rest ≡ own_code call s.now (is_some own.entry) (slot_or_fresh own.entry) rest }
    ensures slot { IfOk result (λ slot. slot.now ≡ slot_or_fresh own.entry) }
{
    check_request(s, call)?;
    let Some(slot) = own else {
        return Err(ErrorCode::AllocationMismatch);
    };
    check(
        slot.allocation.user != call.user,
        ErrorCode::WrongCredentials,
    )?;
    Ok(slot)
}
