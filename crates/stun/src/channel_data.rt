// The sorting of a datagram by its first byte, and the ChannelData message: number, length, data.
ghost use Rattle.std.specs.Prelude.{◌≡◌};
ghost use Rattle.stun.specs.Message.{sorted, channel_data_of};

use crate::kinds::Class;
use wire::Number;

// What a datagram is, by its first byte; an empty one is neither.
#[tactic(auto, unfolding(crate::specs::Message::sorted))]
pub fn sort(s: &[u8]) -> Class
    ensures { result ≡ sorted s.now }
{
    if s.len() == 0 {
        return Class::Neither;
    }
    Class::of(s[0])
}

// The channel's number, and where the data lies in the datagram.
#[derive(Clone, Copy)]
pub struct ChannelMessage {
    pub number: u16,
    pub start: usize,
    pub len: usize,
}

// Spare bytes after the data are ignored.
#[tactic(auto, unfolding(crate::specs::Message::channel_data_of))]
pub fn read_channel_data(s: &[u8]) -> Option<ChannelMessage>
    ensures { result ≡ channel_data_of s.now }
{
    if s.len() < 4 {
        return None;
    }
    let len = u16::at(s, 2) as usize;
    if s.len() - 4 < len {
        return None;
    }
    Some(ChannelMessage {
        number: u16::at(s, 0),
        start: 4,
        len,
    })
}
