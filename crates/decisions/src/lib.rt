// What a call does: what it asks, the look over the slots that this needs, and what becomes of the slot that was found.
#![tactic(auto)]

ghost use Rattle.std.specs.Prelude.{◌≡◌, Bool, true, false, List, ℕ, ◌≤◌, length, is_some};
ghost use Rattle.interface.specs.declared.incoming.Call.TheVariants.{Client, Peer};
ghost use Rattle.rules.specs.declared.answer.Outcome.TheVariants.{DroppedOther};
ghost use Rattle.decisions.specs.declared.client.Asked.TheVariants as AskedIs;
ghost use Rattle.decisions.specs.Client.{asked_by};
ghost use Rattle.decisions.specs.Decisions.{as_rules, asks_denied, on_asked, decided};
ghost use Rattle.decisions.specs.Inner.{ReadyClient, ReadyPeer, Ready, UserFits, asked_for, asking_of, allocates, is_data, wanted_by, saw, place_in, unwritten, Answering, AnsweringSeen};

use allocation_rules::ports::port_for;
use allocation_rules::{Capacity, allocate, refresh};
use client::{Asked, asked_by};
use data_rules::{relay_from_peer, send, send_channel_data};
use interface::incoming::{Call, FromClient, FromPeer};
use permission_rules::channels::channel_bind;
use permission_rules::denials::{any_denied, first_denied};
use permission_rules::permissions::create_permission;
use rules::answer::{Answer, Outcome};
use rules::requests::ClientCall;
use slot::Slot;
use table::keys::{Key, Wanted};
use table::surveys::{Survey, place_of};

pub mod client;

fn allocates(asked: Asked) -> bool
    ensures { result ≡ allocates asked }
{
    asked == Asked::Allocate
}

// Whether a request names a denied peer. No other datagram is looked at.
fn asks_denied(nodes: &[u16; 1536], datagram: &[u8], asked: Asked) -> bool
    requires { asked ≡ asked_by datagram.now }
    ensures { result ≡ asks_denied nodes.now datagram.now asked }
{
    match asked {
        Asked::CreatePermission => any_denied(nodes, datagram),
        Asked::ChannelBind => first_denied(nodes, datagram),
        _ => false,
    }
}

// What a call asks, and whether it names a denied peer.
#[derive(Clone, Copy)]
pub struct Asking {
    pub asked: Asked,
    pub denied: bool,
}

pub fn asking_of(nodes: &[u16; 1536], datagram: &[u8], call: Call) -> Asking
    ensures { result ≡ asking_of nodes.now call datagram.now }
{
    match call {
        Call::Client(_) => {
            let asked = asked_by(datagram);
            Asking {
                asked,
                denied: asks_denied(nodes, datagram, asked),
            }
        }
        Call::Peer(_) => Asking {
            asked: Asked::Nothing,
            denied: false,
        },
    }
}

// What the look over the slots is for.
pub fn wanted_by(call: Call, asking: Asking) -> Wanted
    requires { UserFits call }
    ensures { result ≡ wanted_by call asking.asked }
{
    let asked = asking.asked;
    match call {
        Call::Client(c) => {
            let five_tuple = c.five_tuple;
            let key = Key::Client(five_tuple);
            Wanted {
                time: c.time,
                key,
                room_for: allocates(asked).then_some(c.user as u8),
            }
        }
        Call::Peer(p) => {
            let key = Key::Port(p.port);
            Wanted {
                time: p.time,
                key,
                room_for: None,
            }
        }
    }
}

// What a call asks, and what the look over the slots learned for it.
#[derive(Clone, Copy)]
pub struct Seen {
    pub asked: Asked,
    pub denied: bool,
    pub survey: Survey,
}

pub fn with_survey(asking: Asking, survey: Survey) -> Seen
    ensures { result ≡ saw asking survey }
{
    let asked = asking.asked;
    Seen {
        asked,
        denied: asking.denied,
        survey,
    }
}

// The place of the slot that is written: the lowest that isn't live for Allocate, the caller's own for every other request.
pub fn place_for(seen: Seen) -> usize
    ensures { result ≡ place_in seen }
{
    let asked = seen.asked;
    let survey = seen.survey;
    if allocates(asked) {
        let free = survey.free;
        return place_of(free);
    }
    let own = survey.own;
    place_of(own)
}

// A client's call as the rules take it. No struct update: the user is of another type, and where the search for a port starts is left out.
fn client_call(call: FromClient) -> ClientCall
    requires { call.user ≤ 32 }
    ensures { result ≡ as_rules call }
{
    let five_tuple = call.five_tuple;
    ClientCall {
        time: call.time,
        user: call.user as u8,
        relay: call.relay,
        five_tuple,
    }
}

// ---- The answers. `own` is the slot that was found.

// An Allocate, with what it asks of the whole table.
fn answer_allocate(
    datagram: &[u8],
    reply: &mut [u8],
    call: FromClient,
    survey: Survey,
    own: Option<&Slot>,
) -> Answer
    requires { ReadyClient call datagram.now reply.old × (20 ≤ length datagram.now) }
    ensures { AnsweringSeen (Client call) AskedIs.Allocate (λ slots. (on_asked false call datagram.now slots AskedIs.Allocate).change) survey own.entry reply.old reply.new result }
{
    let free = survey.free;
    let ports = survey.ports;
    let capacity = Capacity {
        held: survey.held,
        free: free.is_some(),
        port: port_for(ports, call.start),
    };
    allocate(datagram, reply, client_call(call), capacity, own)
}

// Nothing passes, and no slot is written.
fn answer_dropped() -> Answer
    ensures { result ≡ unwritten DroppedOther }
{
    Answer {
        outcome: Outcome::DroppedOther,
        written: None,
    }
}

// A client's data, which passes or is dropped. A request is none.
fn pass_client(datagram: &[u8], call: FromClient, asked: Asked, own: Option<&Slot>) -> Outcome
    requires { (call.user ≤ 32) × (asked ≡ asked_by datagram.now) }
    ensures { is_data asked ≡ true → ((denied : Bool) (reply : List ℕ) → Answering (Client call) asked (λ slots. (on_asked denied call datagram.now slots asked).change) own.entry reply reply (unwritten result)) }
{
    match asked {
        Asked::Allocate => Outcome::DroppedOther,
        Asked::Refresh => Outcome::DroppedOther,
        Asked::CreatePermission => Outcome::DroppedOther,
        Asked::ChannelBind => Outcome::DroppedOther,
        Asked::Send => send(datagram, client_call(call), own),
        Asked::ChannelData => send_channel_data(datagram, client_call(call), own),
        Asked::Nothing => Outcome::DroppedOther,
    }
}

// A peer's data.
fn pass_peer(datagram: &[u8], reply: &mut [u8], call: FromPeer, own: Option<&Slot>) -> Outcome
    requires { ReadyPeer call datagram.now reply.old }
    ensures { Answering (Peer call) AskedIs.Nothing (λ slots. (decided false (Peer call) datagram.now slots).change) own.entry reply.old reply.new (unwritten result) }
{
    relay_from_peer(datagram, reply, call.time, call.source, call.id, own)
}

// Whether it is data, by which no slot is written.
pub fn is_data(seen: Seen) -> bool
    ensures { result ≡ is_data seen.asked }
{
    matches!(
        seen.asked,
        Asked::Send | Asked::ChannelData | Asked::Nothing
    )
}

// What data does: a slot is neither written nor passed on.
pub fn pass_data(
    datagram: &[u8],
    reply: &mut [u8],
    call: Call,
    seen: Seen,
    own: Option<&Slot>,
) -> Outcome
    requires { (Ready call datagram.now reply.old × (seen.asked ≡ asked_for call datagram.now)) × (is_data seen.asked ≡ true) }
    ensures { Answering call seen.asked (λ slots. (decided seen.denied call datagram.now slots).change) own.entry reply.old reply.new (unwritten result) }
{
    match call {
        Call::Client(c) => pass_client(datagram, c, seen.asked, own),
        Call::Peer(p) => pass_peer(datagram, reply, p, own),
    }
}

// A client's request, or data for which no slot was found: that is dropped.
fn answer_client(
    datagram: &[u8],
    reply: &mut [u8],
    call: FromClient,
    asked: Asked,
    denied: bool,
    survey: Survey,
    own: Option<&Slot>,
) -> Answer
    requires { (ReadyClient call datagram.now reply.old × (asked ≡ asked_by datagram.now)) × (is_data asked ≡ true → is_some own ≡ false) }
    ensures { AnsweringSeen (Client call) asked (λ slots. (on_asked denied call datagram.now slots asked).change) survey own.entry reply.old reply.new result }
{
    match asked {
        Asked::Allocate => answer_allocate(datagram, reply, call, survey, own),
        Asked::Refresh => refresh(datagram, reply, client_call(call), own),
        Asked::CreatePermission => {
            create_permission(datagram, reply, client_call(call), denied, own)
        }
        Asked::ChannelBind => channel_bind(datagram, reply, client_call(call), denied, own),
        Asked::Send => answer_dropped(),
        Asked::ChannelData => answer_dropped(),
        Asked::Nothing => answer_dropped(),
    }
}

// What a call does that is not refused: a request, or data for which no slot was found.
pub fn answer_call(
    datagram: &[u8],
    reply: &mut [u8],
    call: Call,
    seen: Seen,
    own: Option<&Slot>,
) -> Answer
    requires { (Ready call datagram.now reply.old × (seen.asked ≡ asked_for call datagram.now)) × (is_data seen.asked ≡ true → is_some own ≡ false) }
    ensures { AnsweringSeen call seen.asked (λ slots. (decided seen.denied call datagram.now slots).change) seen.survey own.entry reply.old reply.new result }
{
    let asked = seen.asked;
    let survey = seen.survey;
    match call {
        Call::Client(c) => answer_client(datagram, reply, c, asked, seen.denied, survey, own),
        Call::Peer(_) => answer_dropped(),
    }
}
