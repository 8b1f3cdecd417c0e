// Bitsets: the search in document 000's bitset tables, wherever they lie, and the steps that every reader shares.
#![tactic(auto)]

pub mod kernel;
mod lent;

pub use lent::Lent;
