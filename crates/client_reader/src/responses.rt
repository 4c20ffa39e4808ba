// Success and error responses: the fields at their places, written, and compared with the bytes.
ghost use Rattle.std.specs.Prelude.{◌≡◌, ◌+◌, ◌*◌, ◌≤◌, ◌<◌, ℕ, List, Some, length};
ghost use Rattle.std.specs.Fn.{FnOnceReturnsAtMut};
ghost use Rattle.messages.specs.Inner.{Sent};
ghost use Rattle.client_reader.specs.Fields.{written};
ghost use Rattle.client_reader.specs.Inner.{checked, allocate_fields, refresh_fields, bare_fields, success_fields, types_of, all_below, count_fits, unknown_of, unknown_fields, code_of, plain_error_fields, error_fields};

use crate::Message;
use check::same;
use messages::{
    put_allocate_success, put_bare_success, put_error_response, put_refresh_success,
    put_unknown_response,
};
use stun::kinds::{AttributeKind, Method};
use stun::values::{NOBODY, address_at, transaction_id};
use wire::Number;

// The message, where writing it makes the bytes.
fn compared<F: FnOnce(&mut [u8; 1536]) -> usize>(
    s: &[u8],
    message: Message,
    put: F,
) -> Option<Message>
    requires callable { F.IsAlwaysCallable put }
    requires writes { (before after : List ℕ) (n : ℕ) → FnOnceReturnsAtMut F.FnOnce put before n after → Sent (written message s.now) before after n }
    ensures { result ≡ checked (Some message) s.now }
{
    let mut made = [0u8; 1536];
    let n = put(&mut made);
    same(&made[..n], s).then_some(message)
}

// ---- Success

fn allocate_success(s: &[u8]) -> Option<Message>
    ensures { result ≡ checked (allocate_fields s.now) s.now }
{
    if s.len() < 44 {
        return None;
    }
    let id = transaction_id(s);
    let relay = u32::at(s, 28) ^ stun::COOKIE;
    let port = u16::at(s, 26) ^ stun::COOKIE_HIGH;
    let seconds = u32::at(s, 36);
    let client = address_at(s, 44, s.len() - 44).unwrap_or(NOBODY);
    let message = Message::AllocateSuccess {
        id,
        relay,
        port,
        seconds,
        client,
    };
    compared(s, message, |made| {
        put_allocate_success(made, id, relay, port, seconds, client)
    })
}

fn refresh_success(s: &[u8]) -> Option<Message>
    ensures { result ≡ checked (refresh_fields s.now) s.now }
{
    if s.len() < 28 {
        return None;
    }
    let id = transaction_id(s);
    let seconds = u32::at(s, 24);
    let message = Message::RefreshSuccess { id, seconds };
    compared(s, message, |made| put_refresh_success(made, id, seconds))
}

fn bare_success(s: &[u8], method: Method) -> Option<Message>
    requires { 20 ≤ length s.now }
    ensures { result ≡ checked (bare_fields method s.now) s.now }
{
    let id = transaction_id(s);
    let message = Message::BareSuccess { method, id };
    compared(s, message, |made| put_bare_success(made, method, id))
}

pub(crate) fn success(s: &[u8], method: Method) -> Option<Message>
    requires { 20 ≤ length s.now }
    ensures { result ≡ checked (success_fields method s.now) s.now }
{
    match method {
        Method::Allocate => allocate_success(s),
        Method::Refresh => refresh_success(s),
        Method::CreatePermission => bare_success(s, Method::CreatePermission),
        Method::ChannelBind => bare_success(s, Method::ChannelBind),
    }
}

// ---- Errors

// The count types of a 420.
fn types_of(s: &[u8], count: usize) -> [u16; 16]
    requires { (count ≤ 16) × (32 + count * 2 ≤ length s.now) }
    ensures { result ≡ types_of s.now count }
{
    let mut types = [0u16; 16];
    for (i, t) in types[..count].iter_mut().enumerate() {
        *t = u16::at(s, 32 + i * 2);
    }
    types
}

fn all_below(bound: u16, types: [u16; 16]) -> bool
    ensures { result ≡ all_below bound types }
{
    types.iter().all(|t| *t < bound)
}

#[tactic(auto, unfolding(crate::specs::Inner::count_fits, choice::specs::Choice::both))]
fn count_fits(count: usize, s: &[u8]) -> bool
    requires { count < 65536 }
    ensures { result ≡ count_fits count s.now }
{
    1 <= count && count <= 16 && 32 + count * 2 <= s.len()
}

// A 420 with these types: an array with a count, since there is no heap and memory is fixed.
fn unknown_response(s: &[u8], method: Method, count: usize, types: [u16; 16]) -> Option<Message>
    requires { (count ≤ 16) × (20 ≤ length s.now) }
    ensures { result ≡ checked (Some (unknown_of method s.now count types)) s.now }
{
    let id = transaction_id(s);
    let message = Message::UnknownAttributes {
        method,
        id,
        types,
        count,
    };
    compared(s, message, |made| {
        put_unknown_response(made, method, id, &types[..count])
    })
}

fn unknown_attributes(s: &[u8], method: Method, count: usize) -> Option<Message>
    requires { (count < 65536) × (32 ≤ length s.now) }
    ensures { result ≡ checked (unknown_fields method s.now count) s.now }
{
    if count_fits(count, s) {
        let types = types_of(s, count);
        if all_below(AttributeKind::COMPREHENSION_OPTIONAL, types) {
            return unknown_response(s, method, count, types);
        }
        return None;
    }
    None
}

fn code_of(s: &[u8]) -> u16
    requires { 28 ≤ length s.now }
    ensures { result ≡ code_of s.now }
{
    (u8::at(s, 26) as u16) * 100 + u8::at(s, 27) as u16
}

// An error that carries no types.
#[tactic(auto, unfolding(crate::specs::Inner::plain_error_fields, crate::specs::Inner::checked, choice::specs::Choice::both))]
fn plain_error(s: &[u8], method: Method, code: u16) -> Option<Message>
    requires { 28 ≤ length s.now }
    ensures { result ≡ checked (plain_error_fields method s.now code) s.now }
{
    if 300 <= code && code <= 699 {
        let id = transaction_id(s);
        let message = Message::Error { method, id, code };
        return compared(s, message, |made| {
            put_error_response(made, method, id, code)
        });
    }
    None
}

pub(crate) fn error(s: &[u8], method: Method) -> Option<Message>
    ensures { result ≡ checked (error_fields method s.now) s.now }
{
    if s.len() < 28 {
        return None;
    }
    let code = code_of(s);
    if code == 420 {
        if s.len() < 32 {
            return None;
        }
        return unknown_attributes(s, method, (u16::at(s, 30) / 2) as usize);
    }
    plain_error(s, method, code)
}
