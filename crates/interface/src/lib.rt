// What a call brings, the refusals in their order, and what to send of an outcome.
#![tactic(auto)]

pub mod incoming;
pub mod refusals;
pub mod sending;
