// The relay's public entries, over the sixty-four slots lent as a slice of records, what the relay keeps beside them as one lent struct,
// and the datagram and the reply as lent bytes. Every decision is made in the crates below; here the slots are looked over, the one that
// was found is lent, and it is written back where it changed.
#![tactic(auto)]

ghost use Rattle.std.specs.Prelude.{◌≡◌, false, ◌<◌, length, IsSome};
ghost use Rattle.state.specs.State.{state};
ghost use Rattle.state.specs.Step.{Stepped};
ghost use Rattle.table.specs.Inner.{Within};
ghost use Rattle.decisions.specs.Inner.{Ready, UserFits, asked_for, is_data, place_in, Lent};
ghost use Rattle.relay.specs.Inner.{Saw, LookedFor, WroteBack, Answered, DoesAccepted};

use decisions::{
    Asking, Seen, answer_call, asking_of, is_data, pass_data, place_for, wanted_by, with_survey,
};
use interface::incoming::Call;
use interface::refusals::{Lengths, refusal};
use rules::answer::{Answer, Outcome};
use slot::Slot;
use state::{Bookkeeping, set_clock};
use table::{look, put_slot, slot_at};

// The slots are looked over once, for what is asked.
fn look_for(slots: &[Slot], call: Call, asking: Asking) -> Seen
    requires { UserFits call }
    ensures { LookedFor slots.now call asking result }
{
    let survey = look(slots, wanted_by(call, asking));
    with_survey(asking, survey)
}

// The slot is written back where it changed.
fn write_found(slots: &mut [Slot], seen: Seen, answer: Answer) -> Outcome
    requires { IsSome answer.written → place_in seen < length slots.old }
    ensures { WroteBack seen answer result slots.old slots.new }
{
    if let Some(slot) = answer.written {
        put_slot(slots, place_for(seen), slot);
    }
    answer.outcome
}

// The slot that was found, lent where it lies.
fn found(slots: &[Slot], seen: Seen) -> Option<&Slot>
    requires { Within seen.survey.own (length slots.now) }
    ensures { Lent slots.now seen.survey.own result }
{
    match seen.survey.own {
        Some(k) => Some(slot_at(slots, k)),
        None => None,
    }
}

// What becomes of a request. Its answer has room for a slot, which data, that writes none, would pay for.
fn answer_request(
    slots: &mut [Slot],
    call: Call,
    seen: Seen,
    datagram: &[u8],
    reply: &mut [u8],
) -> Outcome
    requires { (Ready call datagram.now reply.old × Saw slots.old call datagram.now seen) × (is_data seen.asked ≡ false) }
    ensures { Answered seen.denied slots.old call datagram.now result slots.new reply.old reply.new }
{
    let own = found(slots, seen);
    let answer = answer_call(datagram, reply, call, seen, own);
    write_found(slots, seen, answer)
}

// What becomes of what a call asks, by the slot that was found. Data writes none.
fn answer_asked(
    slots: &mut [Slot],
    call: Call,
    asking: Asking,
    datagram: &[u8],
    reply: &mut [u8],
) -> Outcome
    requires { Ready call datagram.now reply.old × (asking.asked ≡ asked_for call datagram.now) }
    ensures { Answered asking.denied slots.old call datagram.now result slots.new reply.old reply.new }
{
    let seen = look_for(slots, call, asking);
    if is_data(seen) {
        return pass_data(datagram, reply, call, seen, found(slots, seen));
    }
    answer_request(slots, call, seen, datagram, reply)
}

// A call that is not refused: the clock is set, and the tree is read where it lies, so that a lookup touches its path alone.
fn accept_call(
    slots: &mut [Slot],
    bookkeeping: &mut Bookkeeping,
    call: Call,
    datagram: &[u8],
    reply: &mut [u8],
) -> Outcome
    requires { Ready call datagram.now reply.old }
    ensures { DoesAccepted slots.old bookkeeping.old call datagram.now result slots.new bookkeeping.new reply.old reply.new }
{
    set_clock(bookkeeping, call.time());
    let asking = asking_of(&bookkeeping.denied, datagram, call);
    answer_asked(slots, call, asking, datagram, reply)
}

// A client's or a peer's datagram.
pub fn relay_datagram(
    slots: &mut [Slot],
    bookkeeping: &mut Bookkeeping,
    call: Call,
    datagram: &[u8],
    reply: &mut [u8],
) -> Outcome
    ensures { Stepped (state slots.old bookkeeping.old) call datagram.now result (state slots.new bookkeeping.new) reply.old reply.new }
{
    let lengths = Lengths {
        slots: slots.len(),
        datagram: datagram.len(),
        reply: reply.len(),
    };
    if let Err(refusal) = refusal(bookkeeping.clock, lengths, call) {
        return Outcome::Refused(refusal.number());
    }
    accept_call(slots, bookkeeping, call, datagram, reply)
}

// The state after a call, and its outcome, where the state is held by value.
#[derive(Clone, Copy)]
pub struct Held {
    pub slots: [Slot; 64],
    pub bookkeeping: Bookkeeping,
    pub outcome: Outcome,
}

// The same entry where the state is held by value.
pub fn held_datagram(
    slots: [Slot; 64],
    bookkeeping: Bookkeeping,
    call: Call,
    datagram: &[u8],
    reply: &mut [u8],
) -> Held
    ensures { Stepped (state slots bookkeeping) call datagram.now result.outcome (state result.slots result.bookkeeping) reply.old reply.new }
{
    let mut table = slots;
    let mut kept = bookkeeping;
    let outcome = relay_datagram(&mut table, &mut kept, call, datagram, reply);
    Held {
        slots: table,
        bookkeeping: kept,
        outcome,
    }
}
