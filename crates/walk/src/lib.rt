#![tactic(auto)]

// What walks are made of: proofs by hand of functions that handle lent slices of structs. It is all in proofs/; there is no code here. Today's
// check writes such proofs itself, so that nothing cites these laws any more.
