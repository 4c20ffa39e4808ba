// Addresses, transport addresses, 5-tuples and transaction ids. `==` compares each word of them: what it computes are the definitions of
// specs/Address.antt, by the laws of proofs/Laws.antt.
#![tactic(auto)]

// An IP address: IPv4 in one word, IPv6 in four, the highest first.
#[derive(Clone, Copy, PartialEq, Eq)]
pub enum Address {
    V4(u32),
    V6(u32, u32, u32, u32),
}

// A transport address: what a client, a server or a peer is reached at.
#[derive(Clone, Copy, PartialEq, Eq)]
pub struct TransportAddress {
    pub address: Address,
    pub port: u16,
}

// Whose an allocation is: client address and port, server address and port, and protocol.
#[derive(Clone, Copy, PartialEq, Eq)]
pub struct FiveTuple {
    pub client: TransportAddress,
    pub server: TransportAddress,
    pub protocol: u8,
}

// The 96 bits that tie a response to its request, in three words.
#[derive(Clone, Copy, PartialEq, Eq)]
pub struct TransactionId {
    pub high: u32,
    pub middle: u32,
    pub low: u32,
}
