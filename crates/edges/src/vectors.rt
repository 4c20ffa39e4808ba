// RFC 5769's addresses, IPv4 and IPv6, written into a message and read back.
ghost use Rattle.std.specs.Prelude.{◌≤◌, length};

use crate::printing::{Hex, Peer};
use address::{Address, TransactionId, TransportAddress};
use messages::put_address;
use stun::kinds::AttributeKind;
use stun::values::{NOBODY, address_at};
use wire::put_at;

// Writes the id of RFC 5769's messages at its place in a header, and the address with the port 32853 behind the header.
fn put_message(message: &mut [u8], address: Address)
    requires { 64 ≤ length message.old }
{
    let id = TransactionId {
        high: 0xb7e7a701,
        middle: 0xbc34d686,
        low: 0xfa87dfae,
    };
    put_at(message, 8, id.high);
    put_at(message, 12, id.middle);
    put_at(message, 16, id.low);
    let client = TransportAddress {
        address,
        port: 32853,
    };
    put_address(
        &mut message[20..],
        AttributeKind::XOR_MAPPED_ADDRESS,
        id,
        client,
    );
}

// The address of that IP version, whose value has so many bytes.
fn vector(rt: &impl Print, version: u64, address: Address, len: usize)
    requires { len ≤ 20 }
{
    let mut message = [0u8; 64];
    put_message(&mut message, address);
    let written = &message[24..24 + len];
    let read = address_at(&message, 24, len).unwrap_or(NOBODY);
    let _ = print!(rt;
        "RFC 5769's IPv{version} address: written {}, read{}\n",
        Hex(written),
        Peer(read)
    );
}

pub(crate) fn vectors(rt: &impl Print) {
    vector(rt, 4, Address::V4(0xc0000201), 8);
    vector(
        rt,
        6,
        Address::V6(0x20010db8, 0x12345678, 0x00112233, 0x44556677),
        20,
    );
}
