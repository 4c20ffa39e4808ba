// The error codes of RFC 8489 and RFC 8656 that the rules give, and the check that gives one.
ghost use Rattle.std.specs.Prelude.{◌≡◌, ◌≤◌, Ok, Err};
ghost use Rattle.choice.specs.Choice.{pick};
ghost use Rattle.rules.specs.Codes.{number};

#[derive(Clone, Copy, PartialEq, Eq)]
pub enum ErrorCode {
    BadRequest,
    Unauthorized,
    Forbidden,
    UnknownAttribute,
    AllocationMismatch,
    AddressFamilyNotSupported,
    WrongCredentials,
    UnsupportedTransportProtocol,
    PeerAddressFamilyMismatch,
    AllocationQuotaReached,
    InsufficientCapacity,
}

impl ErrorCode {
    pub fn number(self) -> u16
        ensures is { result ≡ number self }
        ensures small { result ≤ 699 }
    {
        match self {
            ErrorCode::BadRequest => 400,
            ErrorCode::Unauthorized => 401,
            ErrorCode::Forbidden => 403,
            ErrorCode::UnknownAttribute => 420,
            ErrorCode::AllocationMismatch => 437,
            ErrorCode::AddressFamilyNotSupported => 440,
            ErrorCode::WrongCredentials => 441,
            ErrorCode::UnsupportedTransportProtocol => 442,
            ErrorCode::PeerAddressFamilyMismatch => 443,
            ErrorCode::AllocationQuotaReached => 486,
            ErrorCode::InsufficientCapacity => 508,
        }
    }
}

// The code, of any type, where the test holds; a chain of checks ends with the first.
pub fn check<C: Copy>(bad: bool, code: C) -> Result<(), C>
    ensures { result ≡ pick bad (Err code) (Ok tt) }
{
    if bad { Err(code) } else { Ok(()) }
}
