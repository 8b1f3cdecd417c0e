// The lower mapping: Rust's rows, equal to Unicode's.
#![tactic(auto)]

pub mod kernel;
mod table;
