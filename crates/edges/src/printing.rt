// What is printed: numbers, addresses, data, and what a message that goes to a client is by the clients' reader. Nothing is made of a write that
// fails.
use address::{Address, TransportAddress};
use client_reader::{Message, read_message};
use interface::sending::what_to_send;
use rules::answer::Outcome;
use std::fmt;
use stun::kinds::Method;

pub(crate) fn write(rt: &impl Print, text: &[u8]) {
    let _ = rt.write_all(text);
}

pub(crate) fn write_byte(rt: &impl Print, b: u8) {
    write(rt, &[b]);
}

// Bytes in hex.
#[derive(Clone, Copy)]
pub(crate) struct Hex<'a>(pub &'a [u8]);

impl<'a> fmt::Display for Hex<'a> {
    fn fmt<W: fmt::Write>(&self, f: &mut fmt::Formatter<W>) -> fmt::Result {
        for b in self.0 {
            write!(f, "{b:02x}")?;
        }
        Ok(())
    }
}

// A blank, how many bytes there are, and the bytes: of more than eight the first two and the last two.
#[derive(Clone, Copy)]
pub(crate) struct Data<'a>(pub &'a [u8]);

impl<'a> fmt::Display for Data<'a> {
    fn fmt<W: fmt::Write>(&self, f: &mut fmt::Formatter<W>) -> fmt::Result {
        let s = self.0;
        let len = s.len();
        write!(f, " {len} bytes")?;
        match len {
            0 => Ok(()),
            1..=8 => write!(f, " {}", Hex(s)),
            _ => write!(f, " {}..{}", Hex(&s[..2]), Hex(&s[len - 2..])),
        }
    }
}

// A blank, the address in hex, a blank and the port.
#[derive(Clone, Copy)]
pub(crate) struct Peer(pub TransportAddress);

impl fmt::Display for Peer {
    fn fmt<W: fmt::Write>(&self, f: &mut fmt::Formatter<W>) -> fmt::Result {
        let port = self.0.port;
        match self.0.address {
            Address::V4(a) => write!(f, " {a:08x} {port}"),
            Address::V6(a, b, c, d) => write!(f, " {a:08x}{b:08x}{c:08x}{d:08x} {port}"),
        }
    }
}

fn write_method(rt: &impl Print, method: Method) {
    match method {
        Method::Allocate => write(rt, b"Allocate"),
        Method::Refresh => write(rt, b"Refresh"),
        Method::CreatePermission => write(rt, b"CreatePermission"),
        Method::ChannelBind => write(rt, b"ChannelBind"),
    }
}

fn write_allocated(rt: &impl Print, port: u16, seconds: u32, client: TransportAddress) {
    let _ = print!(rt;
        "Allocate success, port {port}, seconds {seconds}, client{}",
        Peer(client)
    );
}

fn write_error(rt: &impl Print, method: Method, code: u16) {
    write_method(rt, method);
    let _ = print!(rt; " error {code}");
}

// The types that a 420 names: how many, and the first. The array with its count is the message's, which has no heap.
fn write_unknown(rt: &impl Print, count: usize, types: [u16; 16]) {
    let _ = print!(rt; ", types {count} from {:04x}", types[0]);
}

fn write_indication(rt: &impl Print, peer: u32, port: u16, data: &[u8]) {
    let address = Address::V4(peer);
    let _ = print!(rt;
        "Data indication from{},{}",
        Peer(TransportAddress { address, port }),
        Data(data)
    );
}

fn write_channel_data(rt: &impl Print, number: u16, data: &[u8]) {
    let _ = print!(rt; "ChannelData {number:04x},{}", Data(data));
}

// What the clients' reader says of the bytes.
pub(crate) fn write_message(rt: &impl Print, s: &[u8]) {
    let Some(message) = read_message(s) else {
        return write(rt, b"none");
    };
    match message {
        Message::AllocateSuccess {
            port,
            seconds,
            client,
            ..
        } => write_allocated(rt, port, seconds, client),
        Message::RefreshSuccess { seconds, .. } => {
            let _ = print!(rt; "Refresh success, seconds {seconds}");
        }
        Message::BareSuccess { method, .. } => {
            write_method(rt, method);
            write(rt, b" success");
        }
        Message::Error { method, code, .. } => write_error(rt, method, code),
        Message::UnknownAttributes {
            method,
            types,
            count,
            ..
        } => {
            write_error(rt, method, 420);
            write_unknown(rt, count, types);
        }
        Message::DataIndication {
            peer,
            port,
            start,
            len,
            ..
        } => write_indication(rt, peer, port, wire::part(s, start, len)),
        Message::ChannelData { number, start, len } => {
            write_channel_data(rt, number, wire::part(s, start, len))
        }
    }
}

// `R` a refusal, `D` a drop with its cause, `S` what goes to a client, `F` what goes to a peer.
pub(crate) fn write_outcome<'a>(
    rt: &impl Print,
    outcome: Outcome,
    datagram: &'a [u8],
    reply: &'a [u8],
) {
    match outcome {
        Outcome::Refused(number) => {
            let _ = print!(rt; "R {number}");
        }
        Outcome::DroppedLapsed => write(rt, b"D lapsed"),
        Outcome::DroppedNever => write(rt, b"D never"),
        Outcome::DroppedOther => write(rt, b"D other"),
        Outcome::ToClient { five_tuple, len } => {
            let _ = print!(rt; "S{} {len} bytes, ", Peer(five_tuple.client));
            write_message(rt, what_to_send(outcome, datagram, reply));
        }
        Outcome::ToPeer { port, peer, .. } => {
            let data = what_to_send(outcome, datagram, reply);
            let _ = print!(rt; "F {port}{}{}", Peer(peer), Data(data));
        }
    }
}

// A line of the cases, as it stands.
pub(crate) fn write_line(rt: &impl Print, line: &[u8]) {
    write(rt, line);
    write_byte(rt, b'\n');
}
