// The messages that carry data: the fields at their places, and the test of what stands around the data, which is not copied.
ghost use Rattle.std.specs.Prelude.{◌≡◌, ◌+◌, ◌≤◌, ◌<◌, length};
ghost use Rattle.wire.specs.Wire.{num};
ghost use Rattle.client_reader.specs.Fields.{written};
ghost use Rattle.client_reader.specs.Inner.{checked, data_fits, same_bytes, indication_head, indication_of, indication_fields, channel_fields};

use crate::Message;
use check::same;
use stun::kinds::{AttributeKind, MessageKind};
use stun::values::transaction_id;
use wire::Number;

#[tactic(auto, unfolding(crate::specs::Inner::data_fits, choice::specs::Choice::both))]
// The start and the length, and no part: it says whether there is such a part.
fn data_fits(start: usize, len: usize, s: &[u8]) -> bool
    requires { (start ≤ 36) × (len < 65536) }
    ensures { result ≡ data_fits start len s.now }
{
    len <= 1500 && start + len <= s.len()
}

// The numbers before the data that are no fields: the type, the cookie, the types of the attributes, and the length and family of the address.
#[tactic(auto, unfolding(crate::specs::Inner::indication_head, choice::specs::Choice::both))]
fn indication_head(s: &[u8]) -> bool
    requires { 36 ≤ length s.now }
    ensures { result ≡ indication_head s.now }
{
    u32::at(s, 4) == stun::COOKIE
        && u16::at(s, 0) == MessageKind::DATA
        && u16::at(s, 32) == AttributeKind::DATA
        && u16::at(s, 20) == AttributeKind::XOR_PEER_ADDRESS
        && u16::at(s, 22) == 8
        && u16::at(s, 24) == 1
}

// Whether the bytes are a Data indication with len bytes of data.
fn is_indication(s: &[u8], len: usize) -> bool
    requires { (len ≡ num s.now 34 2) × (len ≤ 1500) × (36 + len ≤ length s.now) }
    ensures { result ≡ same_bytes (written (indication_of s.now) s.now) s.now }
{
    let padding = (len + 3) / 4 * 4 - len;
    let data_end = 36 + len;
    let zeros = [0u8; 3];
    let sized = u16::at(s, 2) as usize == 16 + len + padding;
    let padded = same(&zeros[..padding], &s[data_end..]);
    indication_head(s) & (sized & padded)
}

pub(crate) fn indication(s: &[u8]) -> Option<Message>
    ensures { result ≡ checked (indication_fields s.now) s.now }
{
    if s.len() < 36 {
        return None;
    }
    let len = u16::at(s, 34) as usize;
    if data_fits(36, len, s) {
        let message = Message::DataIndication {
            id: transaction_id(s),
            peer: u32::at(s, 28) ^ stun::COOKIE,
            port: u16::at(s, 26) ^ stun::COOKIE_HIGH,
            start: 36,
            len,
        };
        return is_indication(s, len).then_some(message);
    }
    None
}

pub(crate) fn channel_data(s: &[u8]) -> Option<Message>
    requires { 4 ≤ length s.now }
    ensures { result ≡ checked (channel_fields s.now) s.now }
{
    let len = u16::at(s, 2) as usize;
    if data_fits(4, len, s) {
        let message = Message::ChannelData {
            number: u16::at(s, 0),
            start: 4,
            len,
        };
        return (s.len() == 4 + len).then_some(message);
    }
    None
}
