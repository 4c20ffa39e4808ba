// The peers that a message names: the values of its XOR-PEER-ADDRESS attributes.
ghost use Rattle.std.specs.Prelude.{◌≡◌, ◌≤◌, length};
ghost use Rattle.stun.specs.Values.{peers, peers_from, first_peer};
ghost use Rattle.stun.specs.Inner.{attributes_left, Within};

use crate::kinds::AttributeKind;
use crate::message::Attributes;
use crate::values::address_at;
use address::TransportAddress;

// The values of the XOR-PEER-ADDRESS attributes, in order.
#[derive(Clone, Copy)]
pub struct Peers<'a> {
    message: &'a [u8],
    // Those that are left.
    attributes: Attributes<'a>,
    ghost header: { 20 ≤ length message.now },
    ghost within: { Within message.now (attributes_left attributes) },
}

impl<'a> Peers<'a> {
    ghost use Rattle.stun.specs.Peers.{peers_left};

    // Those of the attributes from a place on.
    pub fn starting_at(message: &'a [u8], at: usize) -> Self
        requires { 20 ≤ length message.now }
        ensures { peers_left result ≡ peers_from message.now at }
    {
        Peers {
            message,
            attributes: Attributes::starting_at(message, at),
        }
    }

    pub fn of(message: &'a [u8]) -> Self
        requires { 20 ≤ length message.now }
        ensures { peers_left result ≡ peers message.now }
    {
        Peers::starting_at(message, crate::HEADER)
    }
}

impl<'a> Iterator for Peers<'a> {
    ghost use Rattle.std.specs.Iterator.{YieldsFirst, item_count};
    ghost use Rattle.stun.specs.Peers.{peers_left};

    // A malformed value names no peer.
    type Item = Option<TransportAddress>;

    ghost next_gives = { YieldsFirst peers_left };

    ghost remaining = { item_count peers_left };

    fn next(&mut self) -> Option<Option<TransportAddress>> {
        // `find` was tried, and the proof didn't close: the lemma `find_from_yields_List` doesn't say what is left after the one found.
        while let Some(attribute) = self.attributes.next() {
            if attribute.number == AttributeKind::XOR_PEER_ADDRESS {
                return Some(address_at(self.message, attribute.start, attribute.len));
            }
        }
        None
    }
}

// The first peer address; one that is missing reads as one that is malformed.
pub fn first_peer(s: &[u8]) -> Option<TransportAddress>
    requires { 20 ≤ length s.now }
    ensures { result ≡ first_peer s.now }
{
    Peers::of(s).next().flatten()
}
