// The two thin forms over the plain-slice core: a table as one view, and a list as range records.
#![tactic(auto)]

mod records;
mod views;

pub use records::{Range, pack_ranges};
pub use views::{TableView, search_by_view};
