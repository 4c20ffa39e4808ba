// The lines that the call program writes. Each writer says its exact bytes (specs/Answers.antt) and how many, and leaves the rest of the
// output as it was.
ghost use Rattle.std.specs.Prelude.{[], ◌∷◌, ◌++◌, ◌≤◌, length};
ghost use Rattle.wire.specs.Inner.{Wrote};
ghost use Rattle.messages.specs.Inner.{Sent};
ghost use Rattle.text.specs.Text.{line_text, decimal, address_text, hex_bytes};
ghost use Rattle.script.specs.Answers.{sent_to, answer_of, bad_answer};

use address::{Address, TransportAddress};
use rules::answer::Outcome;
use text::{put_decimal, put_hex_bytes};
use wire::put_bytes;

const TAB: u8 = 9;

const NEWLINE: u8 = 10;

// The letter that a line begins with, and the byte after it.
fn put_letter(out: &mut [u8], letter: u8, end: u8)
    requires { 2 ≤ length out.old }
    ensures { Wrote (letter ∷ end ∷ []) out.old out.new }
{
    out[0] = letter;
    out[1] = end;
}

// A number, and the byte after it.
fn put_number(out: &mut [u8], n: u64, end: u8) -> usize
    requires { 21 ≤ length out.old }
    ensures { (Sent (decimal n ++ end ∷ []) out.old out.new result) × (result ≤ 21) }
{
    let size = put_decimal(out, n);
    out[size] = end;
    size + 1
}

// An address, and a tab.
fn put_address(out: &mut [u8], address: Address) -> usize
    requires { 33 ≤ length out.old }
    ensures { (Sent (address_text address ++ 9 ∷ []) out.old out.new result) × (result ≤ 33) }
{
    let size = text::put_address(out, address);
    out[size] = TAB;
    size + 1
}

// Bytes in hex, and the end of the line.
fn put_hex(out: &mut [u8], sent: &[u8]) -> usize
    requires { (length sent.now ≤ 1600) × (3201 ≤ length out.old) }
    ensures { (Sent (hex_bytes sent.now ++ 10 ∷ []) out.old out.new result) × (result ≤ 3201) }
{
    put_hex_bytes(out, sent);
    let end = 2 * sent.len();
    out[end] = NEWLINE;
    end + 1
}

// The rest of a line, from the address to which the bytes go.
fn put_sent(out: &mut [u8], peer: TransportAddress, sent: &[u8]) -> usize
    requires { (length sent.now ≤ 1600) × (4000 ≤ length out.old) }
    ensures { (Sent (line_text (sent_to peer sent.now)) out.old out.new result) × (result ≤ 4000) }
{
    let address = peer.address;
    let port_at = put_address(out, address);
    let hex_at = port_at + put_number(&mut out[port_at..], peer.port as u64, TAB);
    hex_at + put_hex(&mut out[hex_at..], sent)
}

fn put_to_peer(out: &mut [u8], port: u16, peer: TransportAddress, sent: &[u8]) -> usize
    requires { (length sent.now ≤ 1600) × (4096 ≤ length out.old) }
    ensures { Sent (line_text ((70 ∷ []) ∷ decimal port ∷ sent_to peer sent.now)) out.old out.new result }
{
    put_letter(out, 70, TAB);
    let peer_at = 2 + put_number(&mut out[2..], port as u64, TAB);
    peer_at + put_sent(&mut out[peer_at..], peer, sent)
}

// These bytes as they stand.
fn put_text(out: &mut [u8], text: &[u8]) -> usize
    requires { length text.now ≤ length out.old }
    ensures { Sent text.now out.old out.new result }
{
    put_bytes(out, text);
    text.len()
}

// The line of an outcome that sends these bytes; how many bytes it has.
pub(crate) fn put_answer(output: &mut [u8], outcome: Outcome, sent: &[u8]) -> usize
    requires { (length sent.now ≤ 1600) × (4096 ≤ length output.old) }
    ensures { Sent (answer_of outcome sent.now) output.old output.new result }
{
    match outcome {
        Outcome::Refused(number) => {
            put_letter(output, 82, TAB);
            2 + put_number(&mut output[2..], number as u64, NEWLINE)
        }
        Outcome::DroppedLapsed => put_text(output, b"D\tlapsed\n"),
        Outcome::DroppedNever => put_text(output, b"D\tnever\n"),
        Outcome::DroppedOther => put_text(output, b"D\tother\n"),
        Outcome::ToClient { five_tuple, len: _ } => {
            let client = five_tuple.client;
            put_letter(output, 83, TAB);
            2 + put_sent(&mut output[2..], client, sent)
        }
        Outcome::ToPeer {
            port,
            peer,
            start: _,
            len: _,
        } => put_to_peer(output, port, peer, sent),
    }
}

// The line of a line of another form.
pub(crate) fn put_bad(output: &mut [u8]) -> usize
    requires { 4096 ≤ length output.old }
    ensures { Sent bad_answer output.old output.new result }
{
    put_letter(output, 69, NEWLINE);
    2
}
