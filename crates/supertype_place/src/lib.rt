// Types and the fields of Structs as parts of two arrays, and the nodes that a join writes.
#![tactic(auto)]

pub mod names;
pub mod view;
pub mod written;
