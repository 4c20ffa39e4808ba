// What a client's datagram asks: it is sorted once, here.
ghost use Rattle.std.specs.Prelude.{◌≡◌};
ghost use Rattle.decisions.specs.Client.{request_asks, kind_asks, asked_by};

use stun::channel_data::sort;
use stun::kinds::{Class, MessageKind, Method};
use stun::message::well_formed;
use wire::Number;

#[derive(Clone, Copy, PartialEq, Eq)]
pub enum Asked {
    Allocate,
    Refresh,
    CreatePermission,
    ChannelBind,
    Send,
    ChannelData,
    // Whatever the table holds, it is dropped.
    Nothing,
}

fn asked_by_request(method: Method) -> Asked
    ensures { result ≡ request_asks method }
{
    match method {
        Method::Allocate => Asked::Allocate,
        Method::Refresh => Asked::Refresh,
        Method::CreatePermission => Asked::CreatePermission,
        Method::ChannelBind => Asked::ChannelBind,
    }
}

fn asked_by_kind(kind: MessageKind) -> Asked
    ensures { result ≡ kind_asks kind }
{
    match kind {
        MessageKind::Request(method) => asked_by_request(method),
        MessageKind::SendIndication => Asked::Send,
        _ => Asked::Nothing,
    }
}

pub(crate) fn asked_by(s: &[u8]) -> Asked
    ensures { result ≡ asked_by s.now }
{
    match sort(s) {
        Class::Stun => {
            if well_formed(s) {
                return asked_by_kind(MessageKind::of(u16::at(s, 0)));
            }
            Asked::Nothing
        }
        Class::ChannelData => Asked::ChannelData,
        Class::Neither => Asked::Nothing,
    }
}
