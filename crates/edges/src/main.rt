// Every edge of document 01, run through the entries. The cases are the lines of the file `stdin`, with tabs between their fields; the file
// `stdout` has what each gives. A line that shows something has the case's name first, and prints it with the answer; a call without a
// name prepares a case and prints nothing.
//
//     Q name, time, user, start, client address, port, bytes     a client's datagram
//     P name, time, peer address, port, relay port, bytes        a peer's datagram
//     W reply, slots, protocol, server port, datagram            what later calls bring: the lengths of reply and datagram (0: its bytes)
//     N  /  T clock  /  K  /  B                                  an empty relay; its clock; keep it as it is; go back to the one kept
//     A place, user, client address, port, relay port, expiry    an allocation put into the table; from place 64 on, in all
//     E place, entry, address, expiry                            a permission put into a slot; from entry 8 on, in all
//     C place, entry, number, address, port, expiry              a channel
//     D name, bytes  /  I name, address                          a text of denied prefixes; whether the address is denied
//     G place, number                                            a number put into the tree of denied prefixes; from place 1536 on, in all
//     L name, length                                             the listing, in an output of that length
//     R name, number  /  S name, length  /  F name, start, length    what a made-up outcome sends
//     M name, bytes, length                                      what the clients' reader says (0: of the bytes alone)
//     V  /  #                                                    RFC 5769's addresses; a heading
//
// A call's answer is `R` and the number of a refusal, `D` a drop, `S` what goes to a client, with what the clients' reader says of it, or
// `F` what goes to a peer; then the clock after the call.
#![tactic(auto)]

mod calling;
mod denials;
mod fields;
mod lent;
mod listings;
mod printing;
mod showing;
mod tables;
mod vectors;

use calling::Setting;
use fields::NEWLINE;
use input::read_full;
use relay::Held;

// The relay, one that was kept to go back to, and what calls bring besides.
#[derive(Clone, Copy)]
struct State {
    held: Held,
    kept: Held,
    setting: Setting,
}

// `Q` and `P` make a call, `D` reads a text; the other letters make a table.
fn change(rt: &impl Print, held: &mut Held, setting: Setting, line: &[u8]) {
    match fields::letter(line) {
        b'Q' => *held = calling::from_client(rt, *held, setting, line),
        b'P' => *held = calling::from_peer(rt, *held, setting, line),
        b'D' => denials::read(rt, held, line),
        letter => *held = tables::made(*held, letter, line),
    }
}

// A line that shows something and changes nothing.
fn show(rt: &impl Print, state: &State, line: &[u8]) {
    match fields::letter(line) {
        b'L' => listings::show(rt, &state.held, state.setting.slots, line),
        b'I' => denials::ask(rt, &state.held, line),
        letter => showing::show(rt, letter, line),
    }
}

// `K` keeps the relay as it is, `B` goes back to it, `W` sets what calls bring besides.
// The state is changed where it lies: it holds two tables.
fn go_on(rt: &impl Print, state: &mut State, line: &[u8]) {
    match fields::letter(line) {
        b'K' => state.kept = state.held,
        b'B' => state.held = state.kept,
        b'W' => state.setting = calling::read_setting(line),
        _ => {
            show(rt, state, line);
            change(rt, &mut state.held, state.setting, line);
        }
    }
}

fn run(rt: &impl Print, text: &[u8]) {
    let held = tables::empty();
    let mut state = State {
        held,
        kept: held,
        setting: calling::usual(),
    };
    for line in text.split(|b| *b == NEWLINE) {
        go_on(rt, &mut state, line);
    }
}

fn main(rt: HostRuntime) {
    let mut text = [0u8; 131072];
    let n = read_full(&mut rt.stdin(), &mut text);
    run(&rt, &text[..n]);
}
