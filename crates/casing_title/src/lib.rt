// The title mapping: Rust's own rows over the upper mapping, equal to Unicode's.
#![tactic(auto)]

pub mod kernel;
mod table;
