// Writes every message that the relay sends. Each attribute writer gets the part of the reply that starts after the attributes already
// written, and writes its value's numbers at their places in that part; each message says its exact bytes (specs/Messages.antt) and how many, and leaves the rest of the reply as it was.
#![tactic(auto)]

ghost use Rattle.std.specs.Prelude.{◌≡◌, ◌≤◌, ◌*◌, length};
ghost use Rattle.address.specs.declared.TransactionId.{TransactionId};
ghost use Rattle.address.specs.declared.Address.TheVariants.{V4, V6};
ghost use Rattle.wire.specs.Inner.{Wrote};
ghost use Rattle.messages.specs.Messages.{transaction_id_bytes, header_bytes, address_attribute, lifetime_attribute, error_code_attribute, types_bytes, unknown_attribute, data_attribute, allocate_success, refresh_success, bare_success, error_response, unknown_response, data_indication, channel_data, padding};
ghost use Rattle.messages.specs.Inner.{attribute_head, address_head, address_size, attribute_size, Sent};

use address::{Address, TransactionId, TransportAddress};
use stun::kinds::{AttributeKind, MessageKind, Method};
use wire::{Number, put_at, put_bytes, put_zeros};

// ---- The parts of a message

fn put_transaction_id(out: &mut [u8], id: TransactionId)
    requires { 12 ≤ length out.old }
    ensures { Wrote (transaction_id_bytes id) out.old out.new }
{
    id.high.put(out);
    put_at(out, 4, id.middle);
    put_at(out, 8, id.low);
}

fn put_header(out: &mut [u8], number: u16, len: u16, id: TransactionId)
    requires { 20 ≤ length out.old }
    ensures { Wrote (header_bytes number len id) out.old out.new }
{
    number.put(out);
    put_at(out, 2, len);
    put_at(out, 4, stun::COOKIE);
    put_transaction_id(&mut out[8..], id);
}

// The type and the length of an attribute.
fn put_attribute_head(out: &mut [u8], number: u16, len: u16)
    requires { 4 ≤ length out.old }
    ensures { Wrote (attribute_head number len) out.old out.new }
{
    number.put(out);
    put_at(out, 2, len);
}

// How many zeros follow a value of len bytes.
fn padding(len: usize) -> usize
    requires { len ≤ 1500 }
    ensures { result ≡ padding len }
{
    (len + 3) / 4 * 4 - len
}

// The length of an attribute whose value has len bytes.
fn attribute_size(len: usize) -> usize
    requires { len ≤ 1500 }
    ensures { result ≡ attribute_size len }
{
    4 + len + padding(len)
}

// The length of an address attribute, in bytes; `text::address_size` is of digits, so that the two share no number.
fn address_size(address: Address) -> usize
    ensures { result ≡ address_size address }
{
    match address {
        Address::V4(_) => 12,
        Address::V6(_, _, _, _) => 24,
    }
}

fn put_types(out: &mut [u8], types: &[u16])
    requires { length types.now * 2 ≤ length out.old }
    ensures { Wrote (types_bytes types.now) out.old out.new }
{
    for (i, t) in types.iter().enumerate() {
        put_at(out, i * 2, *t);
    }
}

// ---- The attributes

// The head of an address attribute, its family and its port.
fn put_address_head(out: &mut [u8], number: u16, len: u16, family: u16, port: u16)
    requires { 8 ≤ length out.old }
    ensures { Wrote (address_head number len family port) out.old out.new }
{
    put_attribute_head(out, number, len);
    put_at(out, 4, family);
    put_at(out, 6, port ^ stun::COOKIE_HIGH);
}

// An IPv4 address is not XORed with the transaction id: it may be any.
fn put_v4_address(out: &mut [u8], number: u16, address: u32, port: u16)
    requires { 12 ≤ length out.old }
    ensures { (id : TransactionId) → Wrote (address_attribute number id (V4 address) port) out.old out.new }
{
    put_address_head(out, number, 8, 1, port);
    put_at(out, 8, address ^ stun::COOKIE);
}

// XOR-RELAYED-ADDRESS, XOR-MAPPED-ADDRESS or XOR-PEER-ADDRESS, by the number; how many bytes it has.
pub fn put_address(out: &mut [u8], number: u16, id: TransactionId, peer: TransportAddress) -> usize
    requires { 24 ≤ length out.old }
    ensures { Wrote (address_attribute number id peer.address peer.port) out.old out.new × (result ≡ address_size peer.address) }
{
    match peer.address {
        Address::V4(a) => {
            put_v4_address(out, number, a, peer.port);
            12
        }
        Address::V6(a, b, c, d) => {
            put_address_head(out, number, 20, 2, peer.port);
            put_at(out, 8, a ^ stun::COOKIE);
            put_at(out, 12, b ^ id.high);
            put_at(out, 16, c ^ id.middle);
            put_at(out, 20, d ^ id.low);
            24
        }
    }
}

pub(crate) fn put_lifetime(out: &mut [u8], seconds: u32)
    requires { 8 ≤ length out.old }
    ensures { Wrote (lifetime_attribute seconds) out.old out.new }
{
    put_attribute_head(out, AttributeKind::LIFETIME, 4);
    put_at(out, 4, seconds);
}

pub(crate) fn put_error_code(out: &mut [u8], code: u16)
    requires { (code ≤ 699) × (8 ≤ length out.old) }
    ensures { Wrote (error_code_attribute code) out.old out.new }
{
    put_attribute_head(out, AttributeKind::ERROR_CODE, 4);
    put_at(out, 4, 0u16);
    put_at(out, 6, (code / 100) as u8);
    put_at(out, 7, (code % 100) as u8);
}

// UNKNOWN-ATTRIBUTES; how many bytes it has.
pub(crate) fn put_unknown_attributes(out: &mut [u8], types: &[u16]) -> usize
    requires { (length types.now ≤ 16) × (36 ≤ length out.old) }
    ensures { Sent (unknown_attribute types.now) out.old out.new result }
{
    let len = types.len() * 2;
    put_attribute_head(out, AttributeKind::UNKNOWN_ATTRIBUTES, len as u16);
    put_types(&mut out[4..], types);
    let types_end = 4 + len;
    put_zeros(&mut out[types_end..], padding(len));
    attribute_size(len)
}

// DATA; how many bytes it has.
pub(crate) fn put_data(out: &mut [u8], payload: &[u8]) -> usize
    requires { (length payload.now ≤ 1500) × (1504 ≤ length out.old) }
    ensures { Sent (data_attribute payload.now) out.old out.new result }
{
    let len = payload.len();
    put_attribute_head(out, AttributeKind::DATA, len as u16);
    put_bytes(&mut out[4..], payload);
    let payload_end = 4 + len;
    put_zeros(&mut out[payload_end..], padding(len));
    attribute_size(len)
}

// ---- The messages

pub fn put_allocate_success(
    reply: &mut [u8],
    id: TransactionId,
    relay: u32,
    port: u16,
    seconds: u32,
    client: TransportAddress,
) -> usize
    requires { 1536 ≤ length reply.old }
    ensures { Sent (allocate_success id relay port seconds client) reply.old reply.new result }
{
    let len = 20 + address_size(client.address);
    put_header(reply, MessageKind::ALLOCATE_SUCCESS, len as u16, id);
    put_v4_address(
        &mut reply[20..],
        AttributeKind::XOR_RELAYED_ADDRESS,
        relay,
        port,
    );
    put_lifetime(&mut reply[32..], seconds);
    put_address(
        &mut reply[40..],
        AttributeKind::XOR_MAPPED_ADDRESS,
        id,
        client,
    );
    20 + len
}

pub fn put_refresh_success(reply: &mut [u8], id: TransactionId, seconds: u32) -> usize
    requires { 1536 ≤ length reply.old }
    ensures { Sent (refresh_success id seconds) reply.old reply.new result }
{
    put_header(reply, MessageKind::REFRESH_SUCCESS, 8, id);
    put_lifetime(&mut reply[20..], seconds);
    28
}

// The answer to CreatePermission and ChannelBind: a header alone.
pub fn put_bare_success(reply: &mut [u8], method: Method, id: TransactionId) -> usize
    requires { 1536 ≤ length reply.old }
    ensures { Sent (bare_success method id) reply.old reply.new result }
{
    put_header(reply, method.success_type(), 0, id);
    20
}

pub fn put_error_response(reply: &mut [u8], method: Method, id: TransactionId, code: u16) -> usize
    requires { (code ≤ 699) × (1536 ≤ length reply.old) }
    ensures { Sent (error_response method id code) reply.old reply.new result }
{
    put_header(reply, method.error_type(), 8, id);
    put_error_code(&mut reply[20..], code);
    28
}

// The answer 420, with the types that are unknown.
pub fn put_unknown_response(
    reply: &mut [u8],
    method: Method,
    id: TransactionId,
    types: &[u16],
) -> usize
    requires { (length types.now ≤ 16) × (1536 ≤ length reply.old) }
    ensures { Sent (unknown_response method id types.now) reply.old reply.new result }
{
    let len = 8 + attribute_size(types.len() * 2);
    put_header(reply, method.error_type(), len as u16, id);
    put_error_code(&mut reply[20..], 420);
    put_unknown_attributes(&mut reply[28..], types);
    20 + len
}

// A peer's datagram for a client that has no channel to the peer.
pub fn put_data_indication(
    reply: &mut [u8],
    id: TransactionId,
    peer: u32,
    port: u16,
    payload: &[u8],
) -> usize
    requires { (length payload.now ≤ 1500) × (1536 ≤ length reply.old) }
    ensures { Sent (data_indication id peer port payload.now) reply.old reply.new result }
{
    let len = 12 + attribute_size(payload.len());
    put_header(reply, MessageKind::DATA, len as u16, id);
    put_v4_address(
        &mut reply[20..],
        AttributeKind::XOR_PEER_ADDRESS,
        peer,
        port,
    );
    put_data(&mut reply[32..], payload);
    20 + len
}

// A peer's datagram for a client that has a channel to the peer.
pub fn put_channel_data(reply: &mut [u8], number: u16, payload: &[u8]) -> usize
    requires { (length payload.now ≤ 1500) × (1536 ≤ length reply.old) }
    ensures { Sent (channel_data number payload.now) reply.old reply.new result }
{
    let len = payload.len();
    number.put(reply);
    put_at(reply, 2, len as u16);
    put_bytes(&mut reply[4..], payload);
    4 + len
}
