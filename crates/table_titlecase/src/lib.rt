// Titlecase without ASCII: the skip table of document 000, and Unicode's list that it must equal.
#![tactic(auto)]

pub mod kernel;
mod ranges;
pub mod table;
