// The second reader, for clients: the fields of a success response, an error response, a Data indication or ChannelData, exactly
// where writing those fields makes the bytes. The fields are read at their places. A response is then written and compared; of the
// messages that carry data, what stands around the data is tested, so that data is not copied.
#![tactic(auto)]

mod data;
mod responses;

ghost use Rattle.std.specs.Prelude.{◌≡◌, ◌≤◌, length};
ghost use Rattle.client_reader.specs.Fields.{Exact};
ghost use Rattle.client_reader.specs.Inner.{checked, stun_fields};

use address::{TransactionId, TransportAddress};
use slot::channels::is_channel_number;
use stun::kinds::{MessageKind, Method};
use wire::Number;

#[derive(Clone, Copy)]
pub enum Message {
    AllocateSuccess {
        id: TransactionId,
        // The relayed address and port.
        relay: u32,
        port: u16,
        seconds: u32,
        client: TransportAddress,
    },
    RefreshSuccess {
        id: TransactionId,
        seconds: u32,
    },
    // CreatePermission and ChannelBind.
    BareSuccess {
        method: Method,
        id: TransactionId,
    },
    Error {
        method: Method,
        id: TransactionId,
        code: u16,
    },
    // The error 420: the first count of the types; the others are 0.
    // An array with its count: a slice of the bytes would be no numbers, and no heap is a rule of the project.
    UnknownAttributes {
        method: Method,
        id: TransactionId,
        types: [u16; 16],
        count: usize,
    },
    // The data is the part of the bytes that starts at start and has len bytes (`wire::part`).
    DataIndication {
        id: TransactionId,
        peer: u32,
        port: u16,
        start: usize,
        len: usize,
    },
    ChannelData {
        number: u16,
        start: usize,
        len: usize,
    },
}

#[tactic(auto, unfolding(crate::specs::Inner::checked))]
fn stun_message(s: &[u8], kind: MessageKind) -> Option<Message>
    requires { 20 ≤ length s.now }
    ensures { result ≡ checked (stun_fields kind s.now) s.now }
{
    match kind {
        MessageKind::Success(method) => responses::success(s, method),
        MessageKind::Error(method) => responses::error(s, method),
        MessageKind::DataIndication => data::indication(s),
        MessageKind::Request(_) | MessageKind::SendIndication | MessageKind::Other => None,
    }
}

// The fields exactly where writing them makes the bytes; else None.
pub fn read_message(s: &[u8]) -> Option<Message>
    ensures { Exact s.now result }
{
    if s.len() < 4 {
        return None;
    }
    let number = u16::at(s, 0);
    if is_channel_number(number) {
        return data::channel_data(s);
    }
    if s.len() < stun::HEADER {
        return None;
    }
    stun_message(s, MessageKind::of(number))
}
