// Whether a request names a denied peer, by the tree of denied prefixes.
ghost use Rattle.std.specs.Prelude.{◌≡◌, ◌≤◌, length};
ghost use Rattle.permission_rules.specs.Denials.{denied_address, denied_peer, any_denied, first_denied};

use address::{Address, TransportAddress};
use denied::tree::is_denied;
use stun::peers::{Peers, first_peer};
use stun::values::NOBODY;

fn is_denied_address(nodes: &[u16; 1536], address: Address) -> bool
    ensures { result ≡ denied_address nodes.now address }
{
    match address {
        Address::V4(a) => is_denied(nodes, a),
        Address::V6(..) => false,
    }
}

fn is_denied_peer(nodes: &[u16; 1536], value: Option<TransportAddress>) -> bool
    ensures { result ≡ denied_peer nodes.now value }
{
    is_denied_address(nodes, value.unwrap_or(NOBODY).address)
}

// Of a CreatePermission: whether some peer address is denied.
pub fn any_denied(nodes: &[u16; 1536], s: &[u8]) -> bool
    requires { 20 ≤ length s.now }
    ensures { result ≡ any_denied nodes.now s.now }
{
    Peers::of(s).any(|value| is_denied_peer(nodes, value))
}

// Of a ChannelBind: whether its peer is.
pub fn first_denied(nodes: &[u16; 1536], s: &[u8]) -> bool
    requires { 20 ≤ length s.now }
    ensures { result ≡ first_denied nodes.now s.now }
{
    is_denied_peer(nodes, first_peer(s))
}
