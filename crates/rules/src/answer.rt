// What a call gives back, and the error response.
ghost use Rattle.std.specs.Prelude.{◌≡◌, ◌≤◌, length};
ghost use Rattle.rules.specs.Change.{error_message, keep, to_client};
ghost use Rattle.rules.specs.Inner.{Answers};

use crate::codes::ErrorCode;
use address::{FiveTuple, TransportAddress};
use messages::{put_error_response, put_unknown_response};
use slot::Slot;
use stun::kinds::Method;
use stun::message::unknown_types;
use stun::values::transaction_id;

#[derive(Clone, Copy)]
pub enum Outcome {
    // The number of the refusal. A number and no `Refusal`: `what_to_send` and `put_answer` take any.
    Refused(u8),
    // A drop has one of three causes: a missing permission alone, which has lapsed or never was; or another.
    DroppedLapsed,
    DroppedNever,
    DroppedOther,
    // The first len bytes of the reply go to the client of the 5-tuple.
    ToClient {
        five_tuple: FiveTuple,
        len: usize,
    },
    // The len bytes of the datagram from start go from the relay port to the peer.
    ToPeer {
        port: u16,
        peer: TransportAddress,
        start: usize,
        len: usize,
    },
}

// What a rule decides: the outcome, and what the slot that it is about becomes, where it is written.
#[derive(Clone, Copy)]
pub struct Answer {
    pub outcome: Outcome,
    pub written: Option<Slot>,
}

// The error response, of any code; no slot is written.
pub fn respond_error(
    s: &[u8],
    reply: &mut [u8],
    five_tuple: FiveTuple,
    method: Method,
    code: u16,
) -> Answer
    requires { (20 ≤ length s.now) × (1536 ≤ length reply.old) × (code ≤ 699) }
    ensures { Answers (keep (to_client five_tuple (error_message method s.now code))) reply.old reply.new result }
{
    let id = transaction_id(s);
    if code == ErrorCode::UnknownAttribute.number() {
        let unknown = unknown_types(s);
        let types = &unknown.types[..unknown.count];
        let len = put_unknown_response(reply, method, id, types);
        return Answer {
            outcome: Outcome::ToClient { five_tuple, len },
            written: None,
        };
    }
    let len = put_error_response(reply, method, id, code);
    Answer {
        outcome: Outcome::ToClient { five_tuple, len },
        written: None,
    }
}
