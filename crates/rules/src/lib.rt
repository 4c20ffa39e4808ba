// What all of document 01's rules share: what a call gives back, the words in which the checks speak of a request, and the checks of every
// request. Which slot a call is about, and the search for it, is the relay's.
#![tactic(auto)]

pub mod answer;
pub mod codes;
pub mod requests;
pub mod values;
