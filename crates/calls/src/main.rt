// The call program: answers each line of its standard input as soon as it has it, and lists at the end. It reads, finds the lines and
// writes; what a line is answered with is `script`'s, and the listing is `listing`'s. The answers to the lines that came with one read are
// written together, before it reads again. An argument names a file of denied prefixes, which is read before the first line.
#![tactic(auto)]

mod denials;

ghost use Rattle.std.specs.Prelude.{◌+◌, ◌≤◌, ◌-◌, length, take, drop, ◌++◌, ◌≡◌};
ghost use Rattle.text.specs.Scan.{index_of};
ghost use Rattle.listing.specs.Listing.{listing};

use denials::begin;
use input::read_behind;
use listing::list;
use script::run_line;
use slot::{Slot, fresh_slot};
use state::Bookkeeping;
use std::io;
use std::io::{ErrorKind, Read, Write};
use text::scan::find_far;

const NEWLINE: u8 = 10;

// One byte more than a line may have: of a longer line no more is kept.
const KEPT: usize = 3201;

// An answer has at most so many bytes.
const ANSWER: usize = 4096;

// A line of the input.
#[derive(Clone, Copy)]
struct Line {
    start: usize,
    end: usize,
}

// What of the input is read and not answered yet, from `next` to `end`; and how many bytes of answers are gathered at the front of the
// output and not written yet.
#[derive(Clone, Copy)]
struct Window {
    next: usize,
    end: usize,
    gathered: usize,
}

// ---- What is read

// The place of the first newline from there on, or the end.
fn next_newline(input: &[u8], from: usize, end: usize) -> usize
    requires { (from ≤ end) × (end ≤ length input.now) }
    ensures { (result ≡ from + index_of 10 (take (end - from) (drop from input.now))) × (result ≤ end) }
{
    from + find_far(&input[from..end], NEWLINE)
}

// Reads until there is a whole line. There is none from `next` to `end`; at the end of the input these bytes are the last line.
fn read_line<R: Read>(reader: &mut R, input: &mut [u8], window: &mut Window) -> Option<Line>
    requires within { (window.old.next ≤ window.old.end) × (window.old.end ≤ length input.old) }
    requires no_line { window.old.next + index_of 10 (take (window.old.end - window.old.next) (drop window.old.next input.old)) ≡ window.old.end }
    ensures within { (window.new.next ≤ window.new.end) × (window.new.end ≤ length input.new) }
    ensures gathered { window.new.gathered ≡ window.old.gathered }
{
    for _ in 0..u64::MAX {
        let start = window.next;
        let kept = (window.end - start).min(KEPT);
        input.copy_within(start..start + kept, 0);
        let got = read_behind(reader, input, kept);
        let end = kept + got;
        if got == 0 {
            window.next = end;
            window.end = end;
            return (0 < end).then_some(Line { start: 0, end });
        }
        window.end = end;
        let newline = next_newline(input, kept, end);
        if newline < end {
            window.next = newline + 1;
            return Some(Line {
                start: 0,
                end: newline,
            });
        }
        window.next = 0;
    }
    None
}

// ---- What is written

// Writes the first n bytes.
fn write_front<W: Write>(writer: &mut W, output: &[u8], n: usize) -> io::Result<()>
    requires { n ≤ length output.now }
{
    writer.write_all(&output[..n])?;
    writer.flush()
}

// ---- A line, and its answer

// The line after those that were answered; none at the end of the input. What is gathered is written before input is read, and where it
// leaves no room for one more answer. Input is read only where no whole line is left of it.
fn next_line<R: Read, W: Write>(
    reader: &mut R,
    writer: &mut W,
    input: &mut [u8],
    output: &[u8],
    window: &mut Window,
) -> io::Result<Option<Line>>
    requires within { (window.old.next ≤ window.old.end) × (window.old.end ≤ length input.old) }
    requires gathered { window.old.gathered ≤ length output.now }
    ensures within { (window.new.next ≤ window.new.end) × (window.new.end ≤ length input.new) }
    ensures gathered { window.new.gathered ≤ length output.now }
{
    let start = window.next;
    let end = window.end;
    let newline = next_newline(input, start, end);
    if newline == end || output.len() - window.gathered < ANSWER {
        write_front(writer, output, window.gathered)?;
        window.gathered = 0;
    }
    if newline == end {
        return Ok(read_line(reader, input, window));
    }
    window.next = newline + 1;
    Ok(Some(Line {
        start,
        end: newline,
    }))
}

// Answers the line at the front of the output: how long the answer is.
fn answer_line(
    slots: &mut [Slot],
    bookkeeping: &mut Bookkeeping,
    input: &[u8],
    line: Line,
    output: &mut [u8],
) -> usize
    ensures { result ≤ length output.old }
{
    run_line(slots, bookkeeping, input, line.start, line.end, output)
}

// Answers every line, and writes every answer.
fn serve<R: Read, W: Write>(
    reader: &mut R,
    writer: &mut W,
    slots: &mut [Slot],
    bookkeeping: &mut Bookkeeping,
    input: &mut [u8],
    output: &mut [u8],
) -> io::Result<()> {
    let mut window = Window {
        next: 0,
        end: 0,
        gathered: 0,
    };
    for _ in 0..u64::MAX {
        let Some(line) = next_line(reader, writer, input, output, &mut window)? else {
            return Ok(());
        };
        let rest = &mut output[window.gathered..];
        window.gathered += answer_line(slots, bookkeeping, input, line, rest);
    }
    // More lines than any input has.
    Err(io::Error::from(ErrorKind::Other))
}

// The whole listing, at the front of the text, which has room for every listing; how long it is.
fn whole_listing(slots: &[Slot], clock: u64, text: &mut [u8]) -> usize
    requires { (length slots.now ≡ 64) × (73856 ≤ length text.old) }
    ensures { (result ≡ length (listing clock slots.now)) × (text.new ≡ listing clock slots.now ++ drop (length (listing clock slots.now)) text.old) }
{
    list(slots, clock, text).unwrap_or(0)
}

// The listing at the end.
fn write_listing<W: Write>(writer: &mut W, slots: &[Slot], clock: u64)
    requires { length slots.now ≡ 64 }
{
    let mut text = [0u8; 73856];
    let size = whole_listing(slots, clock, &mut text);
    let _ = write_front(writer, &text, size);
}

fn main(rt: HostRuntime) {
    let slot = fresh_slot();
    let mut slots = [slot; 64];
    let mut input = [0u8; 65536];
    let Some(mut bookkeeping) = begin(&rt, &mut input) else {
        return;
    };
    let mut output = [0u8; 32768];
    let served = serve(
        &mut rt.stdin(),
        &mut rt.stdout(),
        &mut slots,
        &mut bookkeeping,
        &mut input,
        &mut output,
    );
    if served.is_ok() {
        write_listing(&mut rt.stdout(), &slots, bookkeeping.clock);
    }
}
