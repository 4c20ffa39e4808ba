// A line read: the call that it asks for, with the datagram's bytes put at the front of a lent buffer; or none, where it is of neither form.
#![tactic(auto)]

ghost use Rattle.std.specs.Prelude.{◌≡◌, ◌≤◌, length};
ghost use Rattle.lines.specs.Lines.{call_from_client, call_from_peer, with_datagram, client_line, peer_line, line_of};
ghost use Rattle.lines.specs.Inner.{Reads};

use address::{Address, FiveTuple, TransactionId, TransportAddress};
use fields::{address_field, number_field};
use interface::incoming::{Call, FromClient, FromPeer};
use text::read_hex_bytes;

pub mod fields;

// The server's and the relay's address, 203.0.113.5.
const SERVER: u32 = 3405803781;

const SERVER_PORT: u16 = 3478;

// What a line asks for: a call, with a datagram of so many bytes.
#[derive(Clone, Copy)]
pub struct Request {
    pub call: Call,
    pub len: usize,
}

fn call_from_client(time: u64, user: u32, start: u32, address: Address, port: u16) -> Call
    ensures { result ≡ call_from_client time user start address port }
{
    let client = TransportAddress { address, port };
    let server = TransportAddress {
        address: Address::V4(SERVER),
        port: SERVER_PORT,
    };
    let five_tuple = FiveTuple {
        client,
        server,
        protocol: 17,
    };
    Call::Client(FromClient {
        time,
        user,
        start,
        relay: SERVER,
        five_tuple,
    })
}

fn call_from_peer(time: u64, address: Address, port: u16, relay_port: u16) -> Call
    ensures { result ≡ call_from_peer time address port relay_port }
{
    let source = TransportAddress { address, port };
    let id = TransactionId {
        high: 0,
        middle: 0,
        low: 0,
    };
    Call::Peer(FromPeer {
        time,
        source,
        port: relay_port,
        id,
    })
}

// The call with its datagram, if what is left of the line is one in hex.
fn with_datagram(left: &[u8], buffer: &mut [u8], call: Call) -> Option<Request>
    requires { (length left.now ≤ 3200) × (1600 ≤ length buffer.old) }
    ensures { Reads (with_datagram call left.now) buffer.new result }
{
    let len = read_hex_bytes(left, buffer)?;
    Some(Request { call, len })
}

// `Q`: now, user, start, client address, client port, hex.
fn client_line(left: &[u8], buffer: &mut [u8]) -> Option<Request>
    requires { (length left.now ≤ 3200) × (1600 ≤ length buffer.old) }
    ensures { Reads (client_line left.now) buffer.new result }
{
    let (time, left) = number_field(left, u64::MAX)?;
    let (user, left) = number_field(left, 4294967295)?;
    let (start, left) = number_field(left, 4294967295)?;
    let (address, left) = address_field(left)?;
    let (port, left) = number_field(left, 65535)?;
    let call = call_from_client(time, user as u32, start as u32, address, port as u16);
    with_datagram(left, buffer, call)
}

// `P`: now, peer address, peer port, relay port, hex.
fn peer_line(left: &[u8], buffer: &mut [u8]) -> Option<Request>
    requires { (length left.now ≤ 3200) × (1600 ≤ length buffer.old) }
    ensures { Reads (peer_line left.now) buffer.new result }
{
    let (time, left) = number_field(left, u64::MAX)?;
    let (address, left) = address_field(left)?;
    let (port, left) = number_field(left, 65535)?;
    let (relay_port, left) = number_field(left, 65535)?;
    let call = call_from_peer(time, address, port as u16, relay_port as u16);
    with_datagram(left, buffer, call)
}

// The request of a line of any length; none where the line is of neither form.
pub fn read_line(line: &[u8], buffer: &mut [u8]) -> Option<Request>
    requires { 1600 ≤ length buffer.old }
    ensures { Reads (line_of line.now) buffer.new result }
{
    if 3200 < line.len() {
        return None;
    }
    match line {
        [b'Q', b'\t', left @ ..] => client_line(left, buffer),
        [b'P', b'\t', left @ ..] => peer_line(left, buffer),
        _ => None,
    }
}
