// What the definitions of every crate say of lists (specs/), and the laws of lists and tests that more than one of them cites
// (proofs/). No function is declared here.
#![tactic(auto)]
