// Document 01 as definitions (specs/) and the theorems about them (proofs/). No function is declared here.
#![tactic(auto)]
