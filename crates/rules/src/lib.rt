// What a house does at each call and each message, and what holds of it: definitions and proofs, no code.

#![tactic(auto)]
