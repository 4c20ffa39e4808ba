// The tests of what a request carries.
ghost use Rattle.std.specs.Prelude.{◌≡◌};
ghost use Rattle.rules.specs.Values.{any_unknown, missing, wrong_length, other_than, number_given, is_ipv6, ipv4_of, malformed_peer, ipv6_peer};

use address::{Address, TransportAddress};
use stun::message::unknown_types;
use stun::values::NumberValue;

pub fn any_unknown(s: &[u8]) -> bool
    ensures { result ≡ any_unknown s.now }
{
    let unknown = unknown_types(s);
    unknown.count != 0
}

pub fn missing(value: NumberValue) -> bool
    ensures { result ≡ missing value }
{
    !matches!(value, NumberValue::Number(_))
}

pub fn wrong_length(value: NumberValue) -> bool
    ensures { result ≡ wrong_length value }
{
    matches!(value, NumberValue::WrongLength)
}

pub fn other_than(wanted: u32, value: NumberValue) -> bool
    ensures { result ≡ other_than wanted value }
{
    matches!(value, NumberValue::Number(n) if n != wanted)
}

pub fn number_given(value: NumberValue) -> u32
    ensures { result ≡ number_given value }
{
    match value {
        NumberValue::Number(n) => n,
        _ => 0,
    }
}

pub fn is_ipv6(address: Address) -> bool
    ensures { result ≡ is_ipv6 address }
{
    matches!(address, Address::V6(..))
}

pub fn ipv4_of(address: Address) -> u32
    ensures { result ≡ ipv4_of address }
{
    match address {
        Address::V4(a) => a,
        Address::V6(..) => 0,
    }
}

#[tactic(auto, unfolding(crate::specs::Values::malformed_peer))]
pub fn malformed_peer(value: Option<TransportAddress>) -> bool
    ensures { result ≡ malformed_peer value }
{
    value.is_none()
}

#[tactic(auto, unfolding(crate::specs::Values::ipv6_peer))]
pub fn ipv6_peer(value: Option<TransportAddress>) -> bool
    ensures { result ≡ ipv6_peer value }
{
    value.is_some_and(|peer| is_ipv6(peer.address))
}
