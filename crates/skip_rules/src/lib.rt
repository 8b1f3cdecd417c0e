// No code: specs/ has the five rules of a skip table in document 01's words, proofs/ that the checker's tests say them.
#![tactic(auto)]
