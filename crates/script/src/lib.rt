// One line of the call program, over lent bytes: it is read, the relay is called, and the answer is written. A line of neither form
// changes nothing.
#![tactic(auto)]

ghost use Rattle.std.specs.Prelude.{◌≡◌, ◌≤◌, length, take};
ghost use Rattle.interface.specs.Sending.{sent};
ghost use Rattle.state.specs.State.{state};
ghost use Rattle.messages.specs.Inner.{Sent};
ghost use Rattle.script.specs.Answers.{answer_of};
ghost use Rattle.lines.specs.Lines.{asks, line_of};
ghost use Rattle.lines.specs.Inner.{Reads};
ghost use Rattle.script.specs.Run.{line_in, Runs};

use answers::{put_answer, put_bad};
use interface::sending::what_to_send;
use lines::{Request, read_line};
use relay::relay_datagram;
use rules::answer::Outcome;
use slot::Slot;
use state::Bookkeeping;

pub mod answers;

// The part of the input, or an empty one. Its ends are numbers, since the promise of `run_line` is of `line_in start end input`.
fn line_in(input: &[u8], start: usize, end: usize) -> &[u8]
    ensures { result.now ≡ line_in start end input.now }
{
    input.get(start..end).unwrap_or(&[])
}

// `start` and `end` are `run_line`'s promise.
fn read_in(input: &[u8], start: usize, end: usize, buffer: &mut [u8]) -> Option<Request>
    requires { 1600 ≤ length buffer.old }
    ensures { Reads (line_of (line_in start end input.now)) buffer.new result }
{
    read_line(line_in(input, start, end), buffer)
}

// The answer of an outcome, with what it sends.
fn put_outcome(output: &mut [u8], outcome: Outcome, datagram: &[u8], reply: &[u8]) -> usize
    requires { (length datagram.now ≤ 1600) × ((length reply.now ≤ 1600) × (4096 ≤ length output.old)) }
    ensures { Sent (answer_of outcome (sent outcome datagram.now reply.now)) output.old output.new result }
{
    put_answer(output, outcome, what_to_send(outcome, datagram, reply))
}

// A call with the datagram at the front of a buffer. Its reply is made here and not in `run_line`, where every line would pay for it, those of
// neither form too.
fn answer_call(
    slots: &mut [Slot],
    bookkeeping: &mut Bookkeeping,
    request: Request,
    buffer: &[u8],
    output: &mut [u8],
) -> usize
    requires { ((request.len ≤ length buffer.now) × (length buffer.now ≤ 1600)) × (4096 ≤ length output.old) }
    ensures { Runs (asks request.call (take request.len buffer.now)) (state slots.old bookkeeping.old) (state slots.new bookkeeping.new) output.old output.new result }
{
    let mut reply = [0u8; 1536];
    let datagram = &buffer[..request.len];
    let outcome = relay_datagram(slots, bookkeeping, request.call, datagram, &mut reply);
    put_outcome(output, outcome, datagram, &reply)
}

// The line from `start` to `end` of the input; how long the answer is.
pub fn run_line(
    slots: &mut [Slot],
    bookkeeping: &mut Bookkeeping,
    input: &[u8],
    start: usize,
    end: usize,
    output: &mut [u8],
) -> usize
    ensures { Runs (line_of (line_in start end input.now)) (state slots.old bookkeeping.old) (state slots.new bookkeeping.new) output.old output.new result }
{
    if output.len() < 4096 {
        return 0;
    }
    let mut buffer = [0u8; 1600];
    match read_in(input, start, end, &mut buffer) {
        Some(request) => answer_call(slots, bookkeeping, request, &buffer, output),
        None => put_bad(output),
    }
}
