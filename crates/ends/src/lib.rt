// Runs without end, over a network that loses messages, but not all of them: a census that goes on comes to its end, and with programs still what is left is exactly what matters. Definitions and proofs alone.

#![tactic(auto)]
