// Lowercase without ASCII: the bitset of document 000, and Unicode's list that it must equal.
#![tactic(auto)]

pub mod kernel;
mod table;
