// What a call brings.
ghost use Rattle.std.specs.Prelude.{◌≡◌};
ghost use Rattle.interface.specs.Refusals.{time_of};

use address::{FiveTuple, TransactionId, TransportAddress};

// A client's datagram: the time, the authenticated user (0: none), where the search for a port starts, the relay's IPv4 address, and the
// 5-tuple that it came by.
#[derive(Clone, Copy)]
pub struct FromClient {
    pub time: u64,
    pub user: u32,
    pub start: u32,
    pub relay: u32,
    pub five_tuple: FiveTuple,
}

// A peer's datagram: the time, where it came from, the relay port that it came to, and an id for a Data indication.
#[derive(Clone, Copy)]
pub struct FromPeer {
    pub time: u64,
    pub source: TransportAddress,
    pub port: u16,
    pub id: TransactionId,
}

#[derive(Clone, Copy)]
pub enum Call {
    Client(FromClient),
    Peer(FromPeer),
}

impl Call {
    pub fn time(self) -> u64
        ensures { result ≡ time_of self }
    {
        match self {
            Call::Client(c) => c.time,
            Call::Peer(p) => p.time,
        }
    }
}
