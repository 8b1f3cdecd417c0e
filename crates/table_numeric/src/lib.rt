// Numeric without ASCII: the skip table of document 000, marks that keep most numbers away from it, and Unicode's list that
// both must equal.
#![tactic(auto)]

pub mod kernel;
mod marks;
pub mod table;
