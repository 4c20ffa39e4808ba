// CreatePermission and ChannelBind: from a lent datagram and the slot that was found, the outcome, the slot and the reply.
#![tactic(auto)]

pub mod channels;
pub mod denials;
pub mod permissions;
