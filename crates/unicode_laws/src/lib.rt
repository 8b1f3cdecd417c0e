// No code: proofs/ has the laws that join a built-in table, its flat list and Unicode's list, for every property.
#![tactic(auto)]
