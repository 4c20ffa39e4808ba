// What outcomes that are made up send, and what the clients' reader says of bytes.
use crate::calling::{length_of, write_name};
use crate::fields::{bytes, number, number_u8};
use crate::printing::{Data, write_byte, write_line, write_message};
use crate::vectors::vectors;
use address::FiveTuple;
use interface::sending::what_to_send;
use rules::answer::Outcome;
use stun::values::NOBODY;

// What an outcome shows of a datagram and a reply of eight bytes each.
fn write_sent(rt: &impl Print, line: &[u8], outcome: Outcome) {
    write_name(rt, line);
    let data = what_to_send(outcome, b"datagram", b"response");
    let _ = print!(rt; "{}\n", Data(data));
}

// `R` name, number: a refusal; 0 is a drop.
fn refused(rt: &impl Print, line: &[u8]) {
    let outcome = match number_u8(line, 2) {
        0 => Outcome::DroppedOther,
        number => Outcome::Refused(number),
    };
    write_sent(rt, line, outcome);
}

// `S` name, len.
fn to_client(rt: &impl Print, line: &[u8]) {
    let five_tuple = FiveTuple {
        client: NOBODY,
        server: NOBODY,
        protocol: 17,
    };
    let len = number(line, 2) as usize;
    write_sent(rt, line, Outcome::ToClient { five_tuple, len });
}

// `F` name, start, len.
fn to_peer(rt: &impl Print, line: &[u8]) {
    let peer = NOBODY;
    let start = number(line, 2) as usize;
    let len = number(line, 3) as usize;
    write_sent(
        rt,
        line,
        Outcome::ToPeer {
            port: 49152,
            peer,
            start,
            len,
        },
    );
}

// `M` name, bytes, and how many there are in all, or 0; those that the field does not have are 7.
fn message(rt: &impl Print, line: &[u8]) {
    let mut message = [7u8; 1600];
    let field = bytes(line, 2, &mut message);
    let all = number(line, 3) as usize;
    write_name(rt, line);
    write_byte(rt, b' ');
    if let Some(first) = message.get(..length_of(field, all)) {
        write_message(rt, first);
    }
    write_byte(rt, b'\n');
}

// What a line shows that needs no table; `V` the vectors, and a heading as it stands.
pub(crate) fn show(rt: &impl Print, letter: u8, line: &[u8]) {
    match letter {
        b'R' => refused(rt, line),
        b'S' => to_client(rt, line),
        b'F' => to_peer(rt, line),
        b'M' => message(rt, line),
        b'V' => vectors(rt),
        b'#' => write_line(rt, line),
        _ => {}
    }
}
