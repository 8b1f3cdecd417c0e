// The C boundary: thin wrappers and nothing else. Each answers what its entry answers, as plain numbers. One for each exported name,
// slices as they are lent: C calls no generic function and no method.
#![tactic(auto)]

mod characters;
mod encodings;
mod lists;
mod mappings;
mod packing;
mod scalars;
mod tables;
mod unpacking;
