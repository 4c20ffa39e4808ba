// The values of a STUN message: its transaction id, its address values and its numbers of four bytes.
ghost use Rattle.std.specs.Prelude.{◌≡◌, ◌+◌, ◌^◌, ◌≤◌, length};
ghost use Rattle.stun.specs.AttributeNumbers.{channel_number, lifetime, requested_address_family, requested_transport};
ghost use Rattle.stun.specs.Values.{transaction_id_of, v4_at, v6_at, address_at, number_value};
ghost use Rattle.stun.specs.Inner.{Below};

use crate::kinds::AttributeKind;
use crate::message::first_attribute;
pub use crate::peers::first_peer;
use address::{Address, TransactionId, TransportAddress};
use wire::Number;

#[tactic(auto, unfolding(crate::specs::Values::transaction_id_of))]
pub fn transaction_id(s: &[u8]) -> TransactionId
    requires { 20 ≤ length s.now }
    ensures { result ≡ transaction_id_of s.now }
{
    TransactionId {
        high: u32::at(s, 8),
        middle: u32::at(s, 12),
        low: u32::at(s, 16),
    }
}

// ---- Address values

// The peer where no value names one.
pub const NOBODY: TransportAddress = TransportAddress {
    address: Address::V4(0),
    port: 0,
};

#[tactic(auto, unfolding(crate::specs::Values::v4_at))]
fn v4_at(s: &[u8], at: usize) -> TransportAddress
    requires { at + 8 ≤ length s.now }
    ensures { result ≡ v4_at s.now at }
{
    TransportAddress {
        address: Address::V4(u32::at(s, at + 4) ^ crate::COOKIE),
        port: u16::at(s, at + 2) ^ crate::COOKIE_HIGH,
    }
}

#[tactic(auto, unfolding(crate::specs::Values::v6_at))]
fn v6_at(s: &[u8], at: usize) -> TransportAddress
    requires { (at + 20 ≤ length s.now) × (20 ≤ length s.now) }
    ensures { result ≡ v6_at s.now at }
{
    let a = u32::at(s, at + 4) ^ crate::COOKIE;
    let b = u32::at(s, at + 8) ^ u32::at(s, 8);
    let c = u32::at(s, at + 12) ^ u32::at(s, 12);
    let d = u32::at(s, at + 16) ^ u32::at(s, 16);
    TransportAddress {
        address: Address::V6(a, b, c, d),
        port: u16::at(s, at + 2) ^ crate::COOKIE_HIGH,
    }
}

// The address value of len bytes at a place of a message, where it is well formed.
#[tactic(auto, unfolding(crate::specs::Values::address_at))]
pub fn address_at(s: &[u8], at: usize, len: usize) -> Option<TransportAddress>
    requires { (at + len ≤ length s.now) × (20 ≤ length s.now) }
    ensures { result ≡ address_at s.now at len }
{
    if len == 8 && s[at + 1] == 1 {
        return Some(v4_at(s, at));
    }
    if len == 20 && s[at + 1] == 2 {
        return Some(v6_at(s, at));
    }
    None
}

// ---- Numbers of four bytes

// A number, or why there is none: three states, which no Option and no Result has.
#[derive(Clone, Copy)]
pub enum NumberValue {
    Number(u32),
    // Present, and not of 4 bytes.
    WrongLength,
    Absent,
}

// The number in the first attribute of a type: as many of its four bytes as N has.
#[tactic(auto, unfolding(crate::specs::Values::number_value))]
fn number_value<N: Number>(s: &[u8], number: u16) -> NumberValue
    ensures { (result ≡ number_value N.width number s.now) × Below (256 ^ N.width) result }
{
    let Some(attribute) = first_attribute(s, number) else {
        return NumberValue::Absent;
    };
    if attribute.len != 4 {
        return NumberValue::WrongLength;
    }
    NumberValue::Number(N::at(s, attribute.start).wide())
}

pub fn channel_number(s: &[u8]) -> NumberValue
    ensures { (result ≡ number_value 2 channel_number s.now) × Below (256 ^ 2) result }
{
    number_value::<u16>(s, AttributeKind::CHANNEL_NUMBER)
}

pub fn lifetime(s: &[u8]) -> NumberValue
    ensures { (result ≡ number_value 4 lifetime s.now) × Below (256 ^ 4) result }
{
    number_value::<u32>(s, AttributeKind::LIFETIME)
}

pub fn requested_address_family(s: &[u8]) -> NumberValue
    ensures { (result ≡ number_value 1 requested_address_family s.now) × Below (256 ^ 1) result }
{
    number_value::<u8>(s, AttributeKind::REQUESTED_ADDRESS_FAMILY)
}

pub fn requested_transport(s: &[u8]) -> NumberValue
    ensures { (result ≡ number_value 1 requested_transport s.now) × Below (256 ^ 1) result }
{
    number_value::<u8>(s, AttributeKind::REQUESTED_TRANSPORT)
}
