// Denied prefixes: a text of them that is read, trees that are made up, and whether an address is denied.
use crate::calling::write_name;
use crate::fields::{address, bytes, number, number_u16};
use crate::printing::{write, write_byte};
use address::Address;
use denied::tree::is_denied;
use refusal::Refusal;
use relay::Held;
use state::{Bookkeeping, deny};

// The number of the refusal, or how many nodes the tree has.
fn write_reading(rt: &impl Print, line: &[u8], read: Result<usize, Refusal>) {
    write_name(rt, line);
    write_byte(rt, b' ');
    match read {
        Ok(count) => {
            let _ = print!(rt; "nodes {count}");
        }
        Err(refusal) => {
            let _ = print!(rt; "R {}", refusal.number());
        }
    }
    write_byte(rt, b'\n');
}

// The first size bytes are the text.
fn read_first(rt: &impl Print, held: &mut Held, line: &[u8], bytes: &[u8], size: usize) {
    if let Some(text) = bytes.get(..size) {
        let read = deny(&mut held.bookkeeping, text);
        write_reading(rt, line, read);
    }
}

// `D` name, bytes: a text is read.
pub(crate) fn read(rt: &impl Print, held: &mut Held, line: &[u8]) {
    let mut text = [0u8; 1600];
    let size = bytes(line, 2, &mut text);
    read_first(rt, held, line, &text, size);
}

// `G` place, number: a number put into the tree, three for each node; from place 1,536 on, in every place.
pub(crate) fn with_number(held: Held, line: &[u8]) -> Held {
    let mut denied = held.bookkeeping.denied;
    let place = number(line, 1) as usize;
    let value = number_u16(line, 2);
    if place < 1536 {
        denied[place] = value;
    } else {
        denied = [value; 1536];
    }
    let bookkeeping = Bookkeeping {
        denied,
        ..held.bookkeeping
    };
    Held {
        bookkeeping,
        ..held
    }
}

fn write_answer(rt: &impl Print, held: &Held, a: u32) {
    if is_denied(&held.bookkeeping.denied, a) {
        write(rt, b" denied\n");
    } else {
        write(rt, b" not denied\n");
    }
}

// `I` name, address: whether it is denied.
pub(crate) fn ask(rt: &impl Print, held: &Held, line: &[u8]) {
    write_name(rt, line);
    match address(line, 2) {
        Address::V4(a) => write_answer(rt, held, a),
        Address::V6(_, _, _, _) => write(rt, b" no IPv4 address\n"),
    }
}
