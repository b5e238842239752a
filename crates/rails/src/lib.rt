// The dual-rail encoding of a hall as definitions, and its theorems; no code. 02, request 4.
#![tactic(auto)]
