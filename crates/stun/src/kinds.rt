// The kinds of datagrams, messages and attributes, with the numbers that stand for them.
ghost use Rattle.std.specs.Prelude.{◌≡◌};
ghost use Rattle.stun.specs.Kinds.{class_of, message_kind_of, attribute_kind_of, success_type, error_type};

// What the first byte says of a datagram.
#[derive(Clone, Copy, PartialEq, Eq)]
pub enum Class {
    Stun,
    ChannelData,
    Neither,
}

impl Class {
    pub fn of(first: u8) -> Self
        ensures { result ≡ class_of first }
    {
        match first {
            0..=3 => Class::Stun,
            64..=79 => Class::ChannelData,
            _ => Class::Neither,
        }
    }
}

// The methods that a client requests.
#[derive(Clone, Copy, PartialEq, Eq)]
pub enum Method {
    Allocate,
    Refresh,
    CreatePermission,
    ChannelBind,
}

impl Method {
    // Two tables of numbers: `success_type` and `error_type` share no row.
    pub fn success_type(self) -> u16
        ensures { result ≡ success_type self }
    {
        match self {
            Method::Allocate => MessageKind::ALLOCATE_SUCCESS,
            Method::Refresh => MessageKind::REFRESH_SUCCESS,
            Method::CreatePermission => MessageKind::CREATE_PERMISSION_SUCCESS,
            Method::ChannelBind => MessageKind::CHANNEL_BIND_SUCCESS,
        }
    }

    pub fn error_type(self) -> u16
        ensures { result ≡ error_type self }
    {
        match self {
            Method::Allocate => MessageKind::ALLOCATE_ERROR,
            Method::Refresh => MessageKind::REFRESH_ERROR,
            Method::CreatePermission => MessageKind::CREATE_PERMISSION_ERROR,
            Method::ChannelBind => MessageKind::CHANNEL_BIND_ERROR,
        }
    }
}

#[derive(Clone, Copy, PartialEq, Eq)]
pub enum MessageKind {
    Request(Method),
    Success(Method),
    Error(Method),
    SendIndication,
    DataIndication,
    Other,
}

impl MessageKind {
    pub const ALLOCATE: u16 = 0x0003;

    pub const REFRESH: u16 = 0x0004;

    pub const CREATE_PERMISSION: u16 = 0x0008;

    pub const CHANNEL_BIND: u16 = 0x0009;

    pub const SEND: u16 = 0x0016;

    pub const DATA: u16 = 0x0017;

    pub const ALLOCATE_SUCCESS: u16 = 0x0103;

    pub const REFRESH_SUCCESS: u16 = 0x0104;

    pub const CREATE_PERMISSION_SUCCESS: u16 = 0x0108;

    pub const CHANNEL_BIND_SUCCESS: u16 = 0x0109;

    pub const ALLOCATE_ERROR: u16 = 0x0113;

    pub const REFRESH_ERROR: u16 = 0x0114;

    pub const CREATE_PERMISSION_ERROR: u16 = 0x0118;

    pub const CHANNEL_BIND_ERROR: u16 = 0x0119;

    pub fn of(number: u16) -> Self
        ensures { result ≡ message_kind_of number }
    {
        match number {
            MessageKind::ALLOCATE => MessageKind::Request(Method::Allocate),
            MessageKind::REFRESH => MessageKind::Request(Method::Refresh),
            MessageKind::CREATE_PERMISSION => MessageKind::Request(Method::CreatePermission),
            MessageKind::CHANNEL_BIND => MessageKind::Request(Method::ChannelBind),
            MessageKind::SEND => MessageKind::SendIndication,
            MessageKind::DATA => MessageKind::DataIndication,
            MessageKind::ALLOCATE_SUCCESS => MessageKind::Success(Method::Allocate),
            MessageKind::REFRESH_SUCCESS => MessageKind::Success(Method::Refresh),
            MessageKind::CREATE_PERMISSION_SUCCESS => {
                MessageKind::Success(Method::CreatePermission)
            }
            MessageKind::CHANNEL_BIND_SUCCESS => MessageKind::Success(Method::ChannelBind),
            MessageKind::ALLOCATE_ERROR => MessageKind::Error(Method::Allocate),
            MessageKind::REFRESH_ERROR => MessageKind::Error(Method::Refresh),
            MessageKind::CREATE_PERMISSION_ERROR => MessageKind::Error(Method::CreatePermission),
            MessageKind::CHANNEL_BIND_ERROR => MessageKind::Error(Method::ChannelBind),
            _ => MessageKind::Other,
        }
    }
}

#[derive(Clone, Copy, PartialEq, Eq)]
pub enum AttributeKind {
    ChannelNumber,
    Lifetime,
    XorPeerAddress,
    Data,
    RequestedAddressFamily,
    RequestedTransport,
    Skipped,
    Unknown,
}

impl AttributeKind {
    pub const MAPPED_ADDRESS: u16 = 0x0001;

    pub const USERNAME: u16 = 0x0006;

    pub const MESSAGE_INTEGRITY: u16 = 0x0008;

    pub const ERROR_CODE: u16 = 0x0009;

    pub const UNKNOWN_ATTRIBUTES: u16 = 0x000a;

    pub const CHANNEL_NUMBER: u16 = 0x000c;

    pub const LIFETIME: u16 = 0x000d;

    pub const XOR_PEER_ADDRESS: u16 = 0x0012;

    pub const DATA: u16 = 0x0013;

    pub const REALM: u16 = 0x0014;

    pub const NONCE: u16 = 0x0015;

    pub const XOR_RELAYED_ADDRESS: u16 = 0x0016;

    pub const REQUESTED_ADDRESS_FAMILY: u16 = 0x0017;

    pub const REQUESTED_TRANSPORT: u16 = 0x0019;

    pub const MESSAGE_INTEGRITY_SHA256: u16 = 0x001c;

    pub const PASSWORD_ALGORITHM: u16 = 0x001d;

    pub const USERHASH: u16 = 0x001e;

    pub const XOR_MAPPED_ADDRESS: u16 = 0x0020;
    // From here on an attribute need not be understood.
    pub const COMPREHENSION_OPTIONAL: u16 = 0x8000;

    pub fn of(number: u16) -> Self
        ensures { result ≡ attribute_kind_of number }
    {
        match number {
            AttributeKind::CHANNEL_NUMBER => AttributeKind::ChannelNumber,
            AttributeKind::LIFETIME => AttributeKind::Lifetime,
            AttributeKind::XOR_PEER_ADDRESS => AttributeKind::XorPeerAddress,
            AttributeKind::DATA => AttributeKind::Data,
            AttributeKind::REQUESTED_ADDRESS_FAMILY => AttributeKind::RequestedAddressFamily,
            AttributeKind::REQUESTED_TRANSPORT => AttributeKind::RequestedTransport,
            AttributeKind::MAPPED_ADDRESS => AttributeKind::Skipped,
            AttributeKind::USERNAME => AttributeKind::Skipped,
            AttributeKind::MESSAGE_INTEGRITY => AttributeKind::Skipped,
            AttributeKind::ERROR_CODE => AttributeKind::Skipped,
            AttributeKind::UNKNOWN_ATTRIBUTES => AttributeKind::Skipped,
            AttributeKind::REALM => AttributeKind::Skipped,
            AttributeKind::NONCE => AttributeKind::Skipped,
            AttributeKind::XOR_RELAYED_ADDRESS => AttributeKind::Skipped,
            AttributeKind::MESSAGE_INTEGRITY_SHA256 => AttributeKind::Skipped,
            AttributeKind::PASSWORD_ALGORITHM => AttributeKind::Skipped,
            AttributeKind::USERHASH => AttributeKind::Skipped,
            AttributeKind::XOR_MAPPED_ADDRESS => AttributeKind::Skipped,
            _ => {
                if AttributeKind::COMPREHENSION_OPTIONAL <= number {
                    AttributeKind::Skipped
                } else {
                    AttributeKind::Unknown
                }
            }
        }
    }
}
