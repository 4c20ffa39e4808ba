// Reads STUN messages and ChannelData in a lent datagram (RFC 8489, RFC 8656): the kinds of messages and attributes, the header and
// the walk over the attributes, the values of attributes, and ChannelData. Nothing here writes or keeps anything.
#![tactic(auto)]

pub mod channel_data;
pub mod kinds;
pub mod message;
pub mod peers;
pub mod values;

// The magic cookie, and its upper half, with which a port is XORed.
pub const COOKIE: u32 = 0x2112a442;

pub const COOKIE_HIGH: u16 = 0x2112;
// The length of a STUN header: the attributes start there.
pub const HEADER: usize = 20;
