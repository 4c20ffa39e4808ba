// The calls of a line: `Q` of a client and `P` of a peer, with the fields that the call program's lines have after the case's name.
use crate::fields::{
    TAB, bytes, field_start, number, number_u8, number_u16, number_u32, peer, stop,
};
use crate::lent::relayed_over;
use crate::printing::{write, write_byte, write_outcome};
use address::{Address, FiveTuple, TransactionId, TransportAddress};
use interface::incoming::{Call, FromClient, FromPeer};
use relay::{Held, held_datagram};
use rules::answer::Outcome;
use slot::fresh_slot;

// What the calls after a `W` line bring besides: how long the reply is, how many slots are lent, the protocol and the server's port of
// the 5-tuple, and how long the datagram is; where that is 0, as long as its bytes.
#[derive(Clone, Copy)]
pub struct Setting {
    pub reply: usize,
    pub slots: usize,
    pub protocol: u8,
    pub server: u16,
    pub datagram: usize,
}

pub(crate) fn usual() -> Setting {
    Setting {
        reply: 1536,
        slots: 64,
        protocol: 17,
        server: 3478,
        datagram: 0,
    }
}

pub(crate) fn read_setting(line: &[u8]) -> Setting {
    Setting {
        reply: number(line, 1) as usize,
        slots: number(line, 2) as usize,
        protocol: number_u8(line, 3),
        server: number_u16(line, 4),
        datagram: number(line, 5) as usize,
    }
}

// The name of a case, its first field. A line without one prepares a case.
fn name(line: &[u8]) -> &[u8] {
    let from = field_start(line, 1);
    let to = stop(line, from, TAB);
    &line[from..to]
}

pub(crate) fn write_name(rt: &impl Print, line: &[u8]) {
    write(rt, name(line));
    write_byte(rt, b':');
}

// What a reply holds before a call.
pub const UNTOUCHED: u8 = 0xaa;

// Whether the reply is as it was from that place on.
pub(crate) fn is_untouched(reply: &[u8], from: usize) -> bool {
    reply.iter().skip(from).all(|b| *b == UNTOUCHED)
}

// How many bytes of the reply are written.
fn written(outcome: Outcome) -> usize {
    match outcome {
        Outcome::ToClient { len, .. } => len,
        _ => 0,
    }
}

// The name, what the call gave, and the clock afterwards.
fn write_case<'a>(rt: &impl Print, line: &[u8], after: &Held, datagram: &'a [u8], reply: &'a [u8]) {
    if name(line).is_empty() {
        return;
    }
    let outcome = after.outcome;
    write_name(rt, line);
    write_byte(rt, b' ');
    write_outcome(rt, outcome, datagram, reply);
    let _ = print!(rt; ", clock {}", after.bookkeeping.clock);
    if !is_untouched(reply, written(outcome)) {
        write(rt, b", the rest of the reply has changed");
    }
    write_byte(rt, b'\n');
}

// The entry over the table, or where the setting says 63 or 65 slots, over a fresh one of so many.
fn answered(held: Held, slots: usize, call: Call, datagram: &[u8], reply: &mut [u8]) -> Held {
    let bookkeeping = held.bookkeeping;
    let outcome = match slots {
        64 => return held_datagram(held.slots, bookkeeping, call, datagram, reply),
        65 => relayed_over::<65>(fresh_slot(), bookkeeping, call, datagram, reply),
        _ => relayed_over::<63>(fresh_slot(), bookkeeping, call, datagram, reply),
    };
    Held { outcome, ..held }
}

// A call with the first len bytes, its line written.
fn called(
    rt: &impl Print,
    held: Held,
    setting: Setting,
    call: Call,
    bytes: &[u8],
    len: usize,
    line: &[u8],
) -> Held {
    let Some(datagram) = bytes.get(..len) else {
        return held;
    };
    let mut reply = [UNTOUCHED; 1536];
    // As much of the reply as the setting says.
    let size = reply.len().min(setting.reply);
    let after = answered(held, setting.slots, call, datagram, &mut reply[..size]);
    write_case(rt, line, &after, datagram, &reply);
    after
}

// As many bytes as a field has, or as is asked for.
pub(crate) fn length_of(field: usize, asked: usize) -> usize {
    if asked == 0 { field } else { asked }
}

// A call with the datagram of that field; bytes that the field does not have are 7.
fn carried(
    rt: &impl Print,
    held: Held,
    setting: Setting,
    call: Call,
    line: &[u8],
    k: usize,
) -> Held {
    let mut datagram = [7u8; 1600];
    let field = bytes(line, k, &mut datagram);
    let len = length_of(field, setting.datagram);
    called(rt, held, setting, call, &datagram, len, line)
}

pub(crate) fn from_client(rt: &impl Print, held: Held, setting: Setting, line: &[u8]) -> Held {
    let server = TransportAddress {
        address: Address::V4(0xcb007105),
        port: setting.server,
    };
    let five_tuple = FiveTuple {
        client: peer(line, 5, 6),
        server,
        protocol: setting.protocol,
    };
    let time = number(line, 2);
    let user = number_u32(line, 3);
    let start = number_u32(line, 4);
    let call = Call::Client(FromClient {
        time,
        user,
        start,
        relay: 0xcb007105,
        five_tuple,
    });
    carried(rt, held, setting, call, line, 7)
}

pub(crate) fn from_peer(rt: &impl Print, held: Held, setting: Setting, line: &[u8]) -> Held {
    let id = TransactionId {
        high: 0,
        middle: 0,
        low: 0,
    };
    let call = Call::Peer(FromPeer {
        time: number(line, 2),
        source: peer(line, 3, 4),
        port: number_u16(line, 5),
        id,
    });
    carried(rt, held, setting, call, line, 6)
}
