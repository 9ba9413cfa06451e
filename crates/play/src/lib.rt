// All that may happen to houses over a network, and the promise on it: definitions and proofs, no code.

#![tactic(auto)]
